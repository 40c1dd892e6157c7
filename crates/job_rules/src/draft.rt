ghost use Rattle.std.specs.Prelude.{◌≡◌, None, OnOk, IfErr};
ghost use Rattle.bern_base.specs.declared.raw.Form.TheVariants as form;
ghost use Rattle.job_rules.specs.State.{start};
ghost use Rattle.job_rules.specs.Rules.{broken_rule};
ghost use Rattle.job_rules.specs.First.{Joins, StopsAt};

use crate::declarations::{
    checked_shape, cols_of, copied_file, extent_on, is_no_size, kind_past_limit, place_extent,
    place_kind, rows_of, shape_fits, shape_past_limit, some_no_extent, some_unknown,
};
use crate::names::{Named, Names};
use crate::stop::Stop;
use crate::tables::{array_facts, is_array, is_col, is_extent, is_format, is_place, number_of};
use bern_base::{
    ArrayDecl, Axis, Checked, ExtentDecl, FormatDecl, Items, MOST_ARRAYS, MOST_EXTENTS,
    MOST_FORMATS, MOST_PLACES, PlaceDecl, RawKind, RawShape, Rule, Text,
};
use std::alloc::Global;

/// What stands before a line: the names that are known, and the job so far.
#[derive(Drop)]
pub(crate) struct Draft<'a> {
    pub(crate) names: Names<'a>,
    pub(crate) job: Checked,
}

impl<'a> Draft<'a> {
    /// Nothing is known yet. It takes no memory.
    pub(crate) fn new(alloc: Global) -> Draft<'a>
        ensures { result ≡ start }
    {
        Draft {
            names: Names::new(alloc),
            job: Checked {
                extents: Items::new(alloc),
                places: Items::new(alloc),
                formats: Items::new(alloc),
                arrays: Items::new(alloc),
                nests: Items::new(alloc),
                turns: Items::new(alloc),
                prints: Items::new(alloc),
            },
        }
    }

    /// `extent NAME NUM`. J3 and J15 are tried.
    pub(crate) fn add_extent(
        &mut self,
        alloc: Global,
        name: &'a Text,
        size: u64,
    ) -> Result<(), Stop>
        ensures ok { OnOk result (Joins self.old self.new 0 (form.Extent name.now size)) }
        ensures err { IfErr result (StopsAt (broken_rule self.old (form.Extent name.now size))) }
    {
        if self.names.find(name.as_bytes()).is_some() {
            return Err(Stop::Broken(Rule::J3));
        }
        if is_no_size(size) || self.job.extents.len() >= MOST_EXTENTS {
            return Err(Stop::Broken(Rule::J15));
        }
        let number = self.job.extents.len() as u32;
        let copy = Text::from_bytes(alloc, name.as_bytes())?;
        self.job.extents.push(ExtentDecl {
            name: copy,
            size: size as u32,
        })?;
        self.names.add(name.as_bytes(), Named::Extent(number))?;
        Ok(())
    }

    /// `place NAME NAME ..`. J3 to J5 and J15 are tried.
    pub(crate) fn add_place(
        &mut self,
        alloc: Global,
        name: &'a Text,
        extent: &Text,
        kind: &RawKind,
    ) -> Result<(), Stop>
        ensures ok { OnOk result (Joins self.old self.new 0 (form.Place name.now extent.now kind.now)) }
        ensures err { IfErr result (StopsAt (broken_rule self.old (form.Place name.now extent.now kind.now))) }
    {
        if self.names.find(name.as_bytes()).is_some() {
            return Err(Stop::Broken(Rule::J3));
        }
        let named = self.names.find(extent.as_bytes());
        if named.is_none() {
            return Err(Stop::Broken(Rule::J4));
        }
        if !is_extent(named) {
            return Err(Stop::Broken(Rule::J5));
        }
        if kind_past_limit(kind) || self.job.places.len() >= MOST_PLACES {
            return Err(Stop::Broken(Rule::J15));
        }
        let number = self.job.places.len() as u32;
        let copy = Text::from_bytes(alloc, name.as_bytes())?;
        let kind = place_kind(alloc, kind)?;
        self.job.places.push(PlaceDecl {
            name: copy,
            extent: number_of(named),
            kind,
            arrays_before: self.job.arrays.len(),
        })?;
        self.names.add(name.as_bytes(), Named::Place(number))?;
        Ok(())
    }

    /// `format NAME LEVELS`. J3 and J15 are tried.
    pub(crate) fn add_format(
        &mut self,
        alloc: Global,
        name: &'a Text,
        shape: &RawShape,
    ) -> Result<(), Stop>
        ensures ok { OnOk result (Joins self.old self.new 0 (form.Format name.now shape.now)) }
        ensures err { IfErr result (StopsAt (broken_rule self.old (form.Format name.now shape.now))) }
    {
        if self.names.find(name.as_bytes()).is_some() {
            return Err(Stop::Broken(Rule::J3));
        }
        if shape_past_limit(shape) || self.job.formats.len() >= MOST_FORMATS {
            return Err(Stop::Broken(Rule::J15));
        }
        let number = self.job.formats.len() as u32;
        let copy = Text::from_bytes(alloc, name.as_bytes())?;
        let shape = checked_shape(alloc, shape)?;
        self.job.formats.push(FormatDecl { name: copy, shape })?;
        self.names.add(name.as_bytes(), Named::Format(number))?;
        Ok(())
    }

    /// `array NAME EXTENTS NAME AXIS by NAME ..`. J3 to J7 and J15 are tried.
    pub(crate) fn add_array(
        &mut self,
        alloc: Global,
        name: &'a Text,
        extents: &Items<Text>,
        format: &Text,
        axis: Axis,
        place: &Text,
        file: &Option<Text>,
    ) -> Result<(), Stop>
        ensures ok { OnOk result (Joins self.old self.new 0 (form.Array name.now extents.now format.now axis place.now file.now)) }
        ensures err { IfErr result (StopsAt (broken_rule self.old (form.Array name.now extents.now format.now axis place.now file.now))) }
    {
        if self.names.find(name.as_bytes()).is_some() {
            return Err(Stop::Broken(Rule::J3));
        }
        let format = self.names.find(format.as_bytes());
        let place = self.names.find(place.as_bytes());
        if some_unknown(&self.names, extents.as_slice()) || format.is_none() || place.is_none() {
            return Err(Stop::Broken(Rule::J4));
        }
        if some_no_extent(&self.names, extents.as_slice())
            || !is_format(format)
            || !is_place(place)
        {
            return Err(Stop::Broken(Rule::J5));
        }
        if !shape_fits(&self.job, number_of(format), extents.len(), is_col(axis)) {
            return Err(Stop::Broken(Rule::J6));
        }
        if extent_on(&self.names, extents.as_slice(), axis)
            != place_extent(&self.job, number_of(place))
        {
            return Err(Stop::Broken(Rule::J7));
        }
        if self.job.arrays.len() >= MOST_ARRAYS {
            return Err(Stop::Broken(Rule::J15));
        }
        let number = self.job.arrays.len() as u32;
        let copy = Text::from_bytes(alloc, name.as_bytes())?;
        let file = copied_file(alloc, file)?;
        let rows = rows_of(&self.names, &self.job, extents.as_slice());
        let cols = cols_of(&self.names, &self.job, extents.as_slice());
        self.job.arrays.push(ArrayDecl {
            name: copy,
            dims: extents.len() as u32,
            rows,
            cols,
            format: number_of(format),
            axis,
            place: number_of(place),
            file,
        })?;
        self.names.add(name.as_bytes(), Named::Array(number))?;
        Ok(())
    }

    /// `print NAME`. J3 to J5 and J11 are tried.
    pub(crate) fn add_print(&mut self, name: &Text) -> Result<(), Stop>
        ensures ok { OnOk result (Joins self.old self.new 0 (form.Print name.now)) }
        ensures err { IfErr result (StopsAt (broken_rule self.old (form.Print name.now))) }
    {
        let named = self.names.find(name.as_bytes());
        let number = number_of(named);
        if is_array(named) && self.job.prints.as_slice().contains(&number) {
            return Err(Stop::Broken(Rule::J3));
        }
        if named.is_none() {
            return Err(Stop::Broken(Rule::J4));
        }
        if !is_array(named) {
            return Err(Stop::Broken(Rule::J5));
        }
        if !array_facts(&self.job, number).dense {
            return Err(Stop::Broken(Rule::J11));
        }
        self.job.prints.push(number)?;
        Ok(())
    }
}
