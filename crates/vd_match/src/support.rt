//! The support package: functions of revision 1993 that do what operators of revision 2019 do.

ghost use Rattle.std.specs.Prelude.{◌≡◌, slice_index_or};
ghost use Rattle.vd_match.specs.Support.{function_number, number_of};

use std::alloc::{AllocError, Global};
use std::marker::Model;
use vd_declarations::{DeclId, Declaration};

/// A function of the support package, in the order in which they are declared there.
#[derive(Clone, Copy, PartialEq, Eq, Debug)]
pub enum Function {
    /// `vd_cond`.
    Condition,
    /// `vd_eq`.
    Match,
    /// `vd_eqv`.
    MatchVectors,
    /// `vd_eqb`.
    MatchBits,
    /// `vd_eqbv`.
    MatchBitVectors,
    /// `vd_ltb`.
    BitLess,
    /// `vd_leb`.
    BitAtMost,
    /// `vd_gtb`.
    BitGreater,
    /// `vd_geb`.
    BitAtLeast,
    /// `vd_rand`.
    AndAll,
    /// `vd_ror1`.
    OrAll,
    /// `vd_rxor`.
    XorAll,
    /// `vd_brand`.
    AndAllBits,
    /// `vd_bror`.
    OrAllBits,
    /// `vd_brxor`.
    XorAllBits,
    /// `vd_and_vs`.
    AndVectorScalar,
    /// `vd_or_vs`.
    OrVectorScalar,
    /// `vd_xor_vs`.
    XorVectorScalar,
    /// `vd_and_sv`.
    AndScalarVector,
    /// `vd_or_sv`.
    OrScalarVector,
    /// `vd_xor_sv`.
    XorScalarVector,
    /// `vd_band_vs`.
    AndBitVectorBit,
    /// `vd_bor_vs`.
    OrBitVectorBit,
    /// `vd_bxor_vs`.
    XorBitVectorBit,
    /// `vd_band_sv`.
    AndBitBitVector,
    /// `vd_bor_sv`.
    OrBitBitVector,
    /// `vd_bxor_sv`.
    XorBitBitVector,
    /// `vd_sll`.
    ShiftLeft,
    /// `vd_srl`.
    ShiftRight,
    /// `vd_rol`.
    RotateLeft,
    /// `vd_ror`.
    RotateRight,
    /// `vd_str`.
    Text,
    /// `vd_strv`.
    VectorText,
    /// `vd_dash`.
    Dash,
}

/// The place of a function among them.
fn function_number(which: Function) -> usize
    ensures { result ≡ function_number which }
{
    which as usize
}

/// The declarations of the functions of the support package, which contracts see as their numbers in their order.
#[derive(Debug, Drop)]
pub struct Support {
    numbers: Vec<DeclId>,
}

impl Model for Support {
    ghost use Rattle.std.specs.Prelude.{ℕ, List};
    ghost use Rattle.std.specs.Coded.{coded_list, coded_ℕ};

    ghost Value = { List ℕ };

    ghost coded = { coded_list coded_ℕ };

    ghost view = { λ a. a.numbers.items };
}

impl Support {
    /// The functions among these declarations from a number on, in their order: where they are those of the support package alone, these are its.
    pub fn of(
        alloc: Global,
        declarations: &[Declaration],
        first: u32,
    ) -> Result<Support, AllocError> {
        let mut numbers = Vec::new(alloc);
        let mut number: u32 = 0;
        for declaration in declarations {
            if number >= first && declaration.class.is_function() {
                numbers.push(DeclId::of(number))?;
            }
            number = number.saturating_add(1);
        }
        Ok(Support { numbers })
    }

    /// The number of a function. Where it isn't there, it is 0, which is no function's.
    pub fn number(&self, which: Function) -> DeclId
        ensures { result ≡ number_of self.now which }
    {
        match self.numbers.get(function_number(which)) {
            Some(number) => *number,
            None => DeclId::of(0),
        }
    }

    /// The number of a function, where it is there.
    pub fn find(&self, which: Function) -> Option<DeclId> {
        match self.numbers.get(function_number(which)) {
            Some(number) => Some(*number),
            None => None,
        }
    }
}
