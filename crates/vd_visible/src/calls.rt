//! Which arguments and elements stand in brackets.

ghost use Rattle.std.specs.Prelude.{◌≡◌, ◌&&◌, ◌||◌, ℕ, not, map, drop, length, OnOk, IfOk, Some, None, option_map};
ghost use Rattle.std.specs.List.{filter, list_all, list_any};
ghost use Rattle.std.specs.Option.{option_copied};
ghost use Rattle.vd_visible.specs.Sights.{sight_from, class_of, mark_of, name_of, parameters_of};
ghost use Rattle.vd_visible.specs.Types.{is_some_type, common_type as common};
ghost use Rattle.vd_visible.specs.Brackets.{state_of};
ghost use Rattle.vd_visible.specs.Lists.{names_in, choice_names, is_name, formal_of, formals, is_element, are_given, fits_call, chosen_names, is_left, left_elements, others_type, fields, aggregate_of, in_brackets, elements_named, first_mark, chosen_mark, choices_type};

use crate::brackets::Brackets;
use crate::lists::{
    choices_of, has_others, is_association, is_chosen_among, is_one_expression, is_unmixed,
    only_choice, positional, simple_name, tree_count,
};
use crate::surroundings::Surroundings;
use crate::types::{declaration_of, is_type};
use std::alloc::{AllocError, Global};
use vd_declarations::{Class, DeclId, TypeId};
use vd_forest::Cursor;
use vd_forms::Form;

/// Those behind the first ones.
fn behind<'a>(ids: &'a [DeclId], count: u32) -> &'a [DeclId]
    ensures { result.now ≡ drop count ids.now }
{
    let count = count as usize;
    if count > ids.len() {
        return &[];
    }
    &ids[count..]
}

/// The type that all of some have.
fn common_type(marks: &[Option<TypeId>]) -> Option<TypeId>
    ensures { result ≡ common marks.now }
{
    let (first, others) = marks.split_first()?;
    let mark = (*first)?;
    for other in others {
        if !is_type(mark, *other) {
            return None;
        }
    }
    Some(mark)
}

/// Whether an identifier is the one choice of some association.
fn is_formal_among(name: &[u8], trees: &Cursor<'_, Form>) -> bool
    ensures { result ≡ list_any (is_name name.now) (formals trees.now) }
{
    let mut rest = trees.fork();
    while let Some(first) = rest.open() {
        if is_formal(name, first.form, &first.parts) {
            return true;
        }
        rest = first.next;
    }
    false
}

/// Whether an identifier is the one choice of an association.
fn is_formal(name: &[u8], form: Form, parts: &Cursor<'_, Form>) -> bool
    ensures { result ≡ is_name name.now (formal_of form parts.now) }
{
    if !is_association(form) {
        return false;
    }
    match only_choice(parts) {
        None => false,
        Some(choice) => choice == name,
    }
}

/// Whether an identifier is one of the choices of some associations.
fn is_chosen(name: &[u8], trees: &Cursor<'_, Form>) -> bool
    ensures { result ≡ list_any (is_name name.now) (chosen_names trees.now) }
{
    let mut rest = trees.fork();
    while let Some(first) = rest.open() {
        if is_association(first.form) && is_chosen_among(name, &choices_of(&first.parts)) {
            return true;
        }
        rest = first.next;
    }
    false
}

impl<'a> Surroundings<'a> {
    /// Whether each of some parameters is named by an association.
    fn are_given(&self, parameters: &[DeclId], trees: &Cursor<'_, Form>) -> bool
        ensures { result ≡ are_given (sight_from self.now) parameters.now (formals trees.now) }
    {
        for parameter in parameters {
            if !is_formal_among(self.name_of(*parameter), trees) {
                return false;
            }
        }
        true
    }

    /// Whether arguments give each parameter of a function once.
    pub fn fits_call(
        &self,
        function: DeclId,
        arguments: &Cursor<'_, Form>,
    ) -> Result<bool, AllocError>
        ensures { IfOk result (λ fits. fits ≡ fits_call (sight_from self.now) (parameters_of (sight_from self.now) function) arguments.now) }
    {
        let parameters = self.parameters_of(function);
        if tree_count(arguments)? != parameters.len() {
            return Ok(false);
        }
        let count = positional(arguments)?;
        Ok(self.are_given(behind(parameters, count), &arguments.skip(count)))
    }

    /// Whether an element stands in no choice.
    fn is_left(&self, element: DeclId, elements: &Cursor<'_, Form>) -> bool
        ensures { result ≡ is_left (sight_from self.now) elements.now element }
    {
        !is_chosen(self.name_of(element), elements)
    }

    /// The elements of a record type that an aggregate gives neither by position nor by name.
    fn left_elements(
        &self,
        alloc: Global,
        mark: TypeId,
        elements: &Cursor<'_, Form>,
    ) -> Result<Vec<DeclId>, AllocError>
        ensures { IfOk result (λ left. left.items ≡ left_elements (sight_from self.now) mark elements.now) }
    {
        let count = positional(elements)?;
        let fields = behind(self.parameters_of(declaration_of(mark)), count);
        let mut left = Vec::new(alloc);
        for field in fields {
            if self.is_left(*field, elements) {
                left.push(*field)?;
            }
        }
        Ok(left)
    }

    /// The types of some declarations.
    fn marks_of(&self, alloc: Global, ids: &[DeclId]) -> Result<Vec<Option<TypeId>>, AllocError>
        ensures { IfOk result (λ marks. marks.items ≡ map (mark_of (sight_from self.now)) ids.now) }
    {
        let mut marks = Vec::new(alloc);
        for id in ids {
            marks.push(self.mark_of(*id))?;
        }
        Ok(marks)
    }

    /// The elements of a record aggregate.
    fn fields(
        &self,
        alloc: Global,
        mark: TypeId,
        elements: &Cursor<'_, Form>,
    ) -> Result<Brackets, AllocError>
        ensures { IfOk result (λ brackets. state_of mark brackets ≡ fields (sight_from self.now) mark elements.now) }
    {
        if !has_others(elements) {
            return Ok(Brackets::Fields { others: None });
        }
        let left = self.left_elements(alloc, mark, elements)?;
        let marks = self.marks_of(alloc, &left)?;
        match common_type(&marks) {
            None => Ok(Brackets::Nothing),
            Some(others) => Ok(Brackets::Fields {
                others: Some(others),
            }),
        }
    }

    /// What stands in the brackets of an aggregate or of a qualified expression of a type.
    pub fn in_brackets(
        &self,
        alloc: Global,
        mark: TypeId,
        elements: &Cursor<'_, Form>,
    ) -> Result<Brackets, AllocError>
        ensures { IfOk result (λ brackets. state_of mark brackets ≡ in_brackets (sight_from self.now) mark elements.now) }
    {
        if is_one_expression(elements) {
            return Ok(Brackets::Expression);
        }
        match self.class_of_type(mark) {
            Class::ArrayType { .. } => {
                if is_unmixed(elements) {
                    Ok(Brackets::Elements)
                } else {
                    Ok(Brackets::Nothing)
                }
            }
            Class::RecordType => self.fields(alloc, mark, elements),
            _ => Ok(Brackets::Nothing),
        }
    }

    /// The elements of a record type that a name selects.
    pub fn elements_named(
        &self,
        alloc: Global,
        mark: TypeId,
        name: &[u8],
    ) -> Result<Vec<DeclId>, AllocError>
        ensures { IfOk result (λ found. found.items ≡ elements_named (sight_from self.now) mark name.now) }
    {
        let selected = self.selected(alloc, declaration_of(mark), name)?;
        let mut found = Vec::new(alloc);
        let ids = selected.as_slice();
        for id in ids {
            if is_record_element(self.class_of(*id)) {
                found.push(*id)?;
            }
        }
        Ok(found)
    }

    /// The type of the element of a record type that a choice names.
    fn chosen_mark(
        &self,
        alloc: Global,
        mark: TypeId,
        name: Option<&[u8]>,
    ) -> Result<Option<TypeId>, AllocError>
        ensures { IfOk result (λ found. found ≡ chosen_mark (sight_from self.now) mark (option_copied name.entry)) }
    {
        let Some(name) = name else {
            return Ok(None);
        };
        let elements = self.elements_named(alloc, mark, name)?;
        match elements.first() {
            None => Ok(None),
            Some(element) => Ok(self.mark_of(*element)),
        }
    }

    /// The type of all elements that the choices of an association name.
    pub fn choices_type(
        &self,
        alloc: Global,
        mark: TypeId,
        association: &Cursor<'_, Form>,
    ) -> Result<Option<TypeId>, AllocError>
        ensures { IfOk result (λ found. found ≡ choices_type (sight_from self.now) mark association.now) }
    {
        let mut marks = Vec::new(alloc);
        let mut rest = choices_of(association);
        while let Some(first) = rest.open() {
            let name = simple_name(first.form, &first.parts);
            let found = self.chosen_mark(alloc, mark, name)?;
            marks.push(found)?;
            rest = first.next;
        }
        Ok(common_type(&marks))
    }
}

/// Whether it is an element of a record.
fn is_record_element(class: Class) -> bool
    ensures { result ≡ is_element class }
{
    matches!(class, Class::RecordElement)
}
