//! What forms declare at their ends.

use crate::levels::Level;
use crate::writer::Writer;
use std::alloc::AllocError;
use vd_declarations::{Class, RegionId, TypeId};
use vd_forest::{Cursor, Opened};
use vd_forms::Form;
use vd_name_rows::Ending;
use vd_notes::number_of;
use vd_predefined::numbers::REGION_OF_WORK;
use vd_resolved::Resolved;

impl<'a> Writer<'a> {
    /// Enters an object, by the identifier of its list.
    fn enter_object(
        &mut self,
        node: &Resolved,
        class: &Class,
        region: RegionId,
    ) -> Result<(), AllocError> {
        let Some(number) = number_of(&node.declaration) else {
            return Ok(());
        };
        let mark = self.type_of(number);
        self.enter_plain(number, region, *class, mark)?;
        Ok(())
    }

    /// Enters objects of a class, by the identifiers of a list.
    fn enter_objects(
        &mut self,
        list: &Cursor<'a, Resolved>,
        class: &Class,
        region: RegionId,
    ) -> Result<(), AllocError> {
        let mut left = list.fork();
        while let Some(node) = left.open() {
            self.enter_object(&node.form, class, region)?;
            left = node.next;
        }
        Ok(())
    }

    /// Enters the ports of a clause.
    fn enter_ports(
        &mut self,
        ports: &Cursor<'a, Resolved>,
        region: RegionId,
    ) -> Result<(), AllocError> {
        let mut left = ports.fork();
        while let Some(node) = left.open() {
            let list = node.parts.skip(1).parts();
            self.enter_objects(&list, &Class::Port, region)?;
            left = node.next;
        }
        Ok(())
    }

    /// Enters a literal of an enumeration type, by its word.
    fn enter_literal(
        &mut self,
        node: &Resolved,
        own: TypeId,
        region: RegionId,
    ) -> Result<(), AllocError> {
        if let Some(number) = number_of(&node.declaration) {
            self.enter_plain(number, region, Class::EnumerationLiteral, Some(own))?;
        }
        Ok(())
    }

    /// Enters the literals of an enumeration type.
    fn enter_literals(
        &mut self,
        literals: &Cursor<'a, Resolved>,
        own: TypeId,
        region: RegionId,
    ) -> Result<(), AllocError> {
        let mut left = literals.fork();
        while let Some(node) = left.open() {
            self.enter_literal(&node.form, own, region)?;
            left = node.next;
        }
        Ok(())
    }

    /// Enters an enumeration type, its literals, and its operators behind them.
    fn enter_enumeration(
        &mut self,
        number: u32,
        literals: &Cursor<'a, Resolved>,
        region: RegionId,
    ) -> Result<(), AllocError> {
        let other = self.enter_plain(number, region, Class::EnumerationType, None)?;
        let own = TypeId::of(other.number());
        self.enter_literals(literals, own, region)?;
        self.names
            .bring_operators(region, own, Class::EnumerationType)
    }

    /// The class of an array type in the text that is written.
    fn array_class(&self, number: u32) -> Option<Class> {
        let Class::ArrayType {
            index,
            element_mark,
            ..
        } = self.class_of(number)
        else {
            return None;
        };
        let index = self.type_meant(index.number())?;
        let element = self.type_meant(element_mark.number())?;
        let element_mark = self.linked(element_mark.number())?;
        Some(Class::ArrayType {
            index,
            element,
            element_mark,
        })
    }

    /// Enters an array type.
    fn enter_array(&mut self, number: u32, region: RegionId) -> Result<(), AllocError> {
        let Some(class) = self.array_class(number) else {
            return Ok(());
        };
        let declared = self.declared(number, class, None)?;
        self.enter_type(number, region, declared)
    }

    /// Enters a record type, whose elements stand in the region at hand.
    fn enter_record(&mut self, number: u32, region: RegionId) -> Result<(), AllocError> {
        let inside = self.at.region;
        let mut declared = self.declared(number, Class::RecordType, None)?;
        declared.parameters = self.linked_parameters(number)?;
        declared.inside = Some(inside);
        self.close(inside);
        self.enter_type(number, region, declared)
    }

    /// Enters a type, by its definition.
    fn enter_definition(
        &mut self,
        number: u32,
        definition: &Cursor<'a, Resolved>,
        region: RegionId,
    ) -> Result<(), AllocError> {
        match definition.form() {
            Some(
                Resolved {
                    form: Form::EnumerationType,
                    ..
                },
            ) => self.enter_enumeration(number, &definition.parts(), region),
            Some(
                Resolved {
                    form: Form::ArrayType,
                    ..
                },
            ) => self.enter_array(number, region),
            Some(
                Resolved {
                    form: Form::RecordType,
                    ..
                },
            ) => self.enter_record(number, region),
            _ => Ok(()),
        }
    }

    /// Enters a subtype.
    fn enter_subtype(&mut self, number: u32, region: RegionId) -> Result<(), AllocError> {
        let Some(mark) = self.tables.mark(number) else {
            return Ok(());
        };
        let Some(other) = self.linked(mark) else {
            return Ok(());
        };
        let own = self.type_meant(mark);
        self.enter_plain(number, region, Class::Subtype { mark: other }, own)?;
        Ok(())
    }

    /// Enters a function, whose parameters stand in the region at hand. One that was declared before is entered no more.
    fn enter_function(&mut self, number: u32, region: RegionId) -> Result<(), AllocError> {
        if self.linked(number).is_some() {
            return Ok(());
        }
        let mark = self.type_of(number);
        let mut declared = self.declared(number, Class::Function, mark)?;
        declared.parameters = self.linked_parameters(number)?;
        declared.inside = Some(self.at.region);
        self.enter(number, region, declared)?;
        Ok(())
    }

    /// Enters an entity or a package in `work`, with the region at hand.
    fn enter_unit(&mut self, number: u32, class: Class) -> Result<(), AllocError> {
        let inside = self.at.region;
        let mut declared = self.declared(number, class, None)?;
        declared.parameters = self.linked_parameters(number)?;
        declared.inside = Some(inside);
        self.close(inside);
        self.enter(number, RegionId::of(REGION_OF_WORK), declared)?;
        Ok(())
    }

    /// Enters what a form declares under its own number.
    fn end_named(
        &mut self,
        ending: Ending,
        number: u32,
        level: &Level,
        node: &Opened<'a, Resolved>,
    ) -> Result<(), AllocError> {
        let region = level.region;
        match ending {
            Ending::NewType => self.enter_definition(number, &node.parts.next(), region),
            Ending::NewSubtype => self.enter_subtype(number, region),
            Ending::NewFunction | Ending::BodyEnds => self.enter_function(number, region),
            Ending::NewEntity => self.enter_unit(number, Class::Entity),
            Ending::NewPackage => self.enter_unit(number, Class::Package),
            _ => Ok(()),
        }
    }

    /// Enters what a form declares whose parts are written, in the region round it.
    pub(crate) fn end(
        &mut self,
        ending: Ending,
        level: &Level,
        node: &Opened<'a, Resolved>,
    ) -> Result<(), AllocError> {
        match ending {
            Ending::Objects { object, names } => {
                let list = node.parts.skip(names).parts();
                self.enter_objects(&list, &object.class(), level.region)
            }
            Ending::AllPorts => self.enter_ports(&node.parts, level.region),
            _ => match level.number {
                Some(number) => self.end_named(ending, number, level, node),
                None => Ok(()),
            },
        }
    }
}
