//! Laws of the definitions, each the contract of a function that does nothing.

ghost use Rattle.std.specs.Prelude.{◌≡◌, true};
ghost use Rattle.vd_bytes.specs.declared.places.Place.{Place};
ghost use Rattle.vd_forest.specs.Forest.{Forest};
ghost use Rattle.vd_forms.specs.declared.form.Form.{Form};
ghost use Rattle.vd_regions.specs.Scopes.{declaration_at};
ghost use Rattle.vd_visible.specs.Sights.{Sight};
ghost use Rattle.vd_name_rows.specs.Designs.{At, Design};
ghost use Rattle.vd_name_rows.specs.Noting.{is_loop_label};
ghost use Rattle.vd_naming.specs.Selected.{Meant};
ghost use Rattle.vd_naming.specs.Paths.{one_that, named_as, mark, is_entity, is_package, is_context};
ghost use Rattle.vd_naming.specs.Views.{is_view};
ghost use Rattle.vd_naming.specs.Fits.{fits};
ghost use Rattle.vd_naming.specs.Nodes.{named_to_fit};
ghost use Rattle.vd_naming.specs.declared.fit.Fit.TheVariants as fit;

/// What fits is what the definitions of the names of a design ask for.
pub fn fits_are_tests()
    ensures marks { (at : At) (d : Design) (place : Place) (tree : Forest Form) → named_to_fit fit.Mark at d place tree ≡ mark at d place tree }
    ensures entities { (at : At) (d : Design) (place : Place) (tree : Forest Form)
        → named_to_fit fit.Entity at d place tree ≡ named_as (λ k. is_entity (declaration_at d.scopes k).class) at d place tree }
    ensures views { (at : At) (d : Design) (place : Place) (tree : Forest Form)
        → named_to_fit fit.View at d place tree ≡ named_as (λ k. is_view (declaration_at d.scopes k).class) at d place tree }
    ensures packages { (s : Sight) (d : Design) (m : Meant)
        → one_that (fits fit.Package s d) m ≡ one_that (λ k. is_package (declaration_at d.scopes k).class) m }
    ensures contexts { (s : Sight) (d : Design) (m : Meant)
        → one_that (fits fit.Context s d) m ≡ one_that (λ k. is_context (declaration_at d.scopes k).class) m }
    ensures labels { (s : Sight) (d : Design) (m : Meant) → one_that (fits fit.LoopLabel s d) m ≡ one_that (is_loop_label d) m }
    ensures any { (s : Sight) (d : Design) (m : Meant) → one_that (fits fit.Any s d) m ≡ one_that (λ k. true) m }
{}
