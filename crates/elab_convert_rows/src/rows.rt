//! A comparison, and its line.
use crate::Made;
use crate::page::Page;
use elab_convert::{ConvertStop, convert_kinds, convert_terms, convert_types};
use elab_tree::{EGuide, EGuideKind, EPure, Env};
use std::alloc::Global;

/// The items over which is compared, and the lines so far.
#[derive(Drop)]
pub(crate) struct Rows {
    pub(crate) alloc: Global,
    pub(crate) env: Env,
    pub(crate) page: Page,
}

impl Rows {
    pub(crate) fn terms(&mut self, row: &str, units: u64, left: Made<EPure>, right: Made<EPure>) {
        let answer = compared_terms(self.alloc, &self.env, left, right, units);
        self.page.line(row, units, &answer);
    }

    pub(crate) fn types(&mut self, row: &str, units: u64, left: Made<EGuide>, right: Made<EGuide>) {
        let answer = compared_types(self.alloc, &self.env, left, right, units);
        self.page.line(row, units, &answer);
    }

    pub(crate) fn kinds(
        &mut self,
        row: &str,
        units: u64,
        left: Made<EGuideKind>,
        right: Made<EGuideKind>,
    ) {
        let answer = compared_kinds(self.alloc, &self.env, left, right, units);
        self.page.line(row, units, &answer);
    }
}

fn compared_terms(
    alloc: Global,
    env: &Env,
    left: Made<EPure>,
    right: Made<EPure>,
    units: u64,
) -> Result<bool, ConvertStop> {
    let (left, right) = (left?, right?);
    convert_terms(alloc, env, &left, &right, units)
}

fn compared_types(
    alloc: Global,
    env: &Env,
    left: Made<EGuide>,
    right: Made<EGuide>,
    units: u64,
) -> Result<bool, ConvertStop> {
    let (left, right) = (left?, right?);
    convert_types(alloc, env, &left, &right, units)
}

fn compared_kinds(
    alloc: Global,
    env: &Env,
    left: Made<EGuideKind>,
    right: Made<EGuideKind>,
    units: u64,
) -> Result<bool, ConvertStop> {
    let (left, right) = (left?, right?);
    convert_kinds(alloc, env, &left, &right, units)
}
