//! The calls, which each class has, and a line for each of them.
use crate::Made;
use crate::page::Page;
use crate::show::{show_guide, show_guide_kind, show_kind, show_pure, show_term, show_type};
use elab_tree::{EGuide, EGuideKind, EKind, EPure, ETerm, EType, TreeStop};
use std::alloc::Global;

/// What trees of each class have.
pub(crate) trait Tree: Drop {
    fn levels(&self) -> u32;

    fn is_open(&self) -> bool;

    fn show(&self, page: &mut Page);

    fn copied(&self) -> Made<Self>;

    fn raised(&self, alloc: Global, from: u32, by: u32) -> Result<Self, TreeStop>;
}

/// Trees in which a part of the class `P` is put for a variable.
pub(crate) trait Puts<P>: Tree {
    fn put(&self, alloc: Global, at: u32, part: &P) -> Result<Self, TreeStop>;
}

/// Trees in which unknowns are solved.
pub(crate) trait Solves: Tree {
    fn solved(&self, alloc: Global, found: &[Option<EType>]) -> Result<Self, TreeStop>;
}

/// Trees of which erasure leaves one of the class `E`.
pub(crate) trait Erases<E>: Tree {
    fn erased(&self, alloc: Global) -> Made<E>;
}

impl Tree for EPure {
    fn levels(&self) -> u32 {
        self.depth()
    }

    fn is_open(&self) -> bool {
        self.has_unknown()
    }

    fn show(&self, page: &mut Page) {
        show_pure(self, page);
    }

    fn copied(&self) -> Made<EPure> {
        Ok(self.clone()?)
    }

    fn raised(&self, alloc: Global, from: u32, by: u32) -> Result<EPure, TreeStop> {
        self.shift(alloc, from, by)
    }
}

impl Tree for EGuide {
    fn levels(&self) -> u32 {
        self.depth()
    }

    fn is_open(&self) -> bool {
        self.has_unknown()
    }

    fn show(&self, page: &mut Page) {
        show_guide(self, page);
    }

    fn copied(&self) -> Made<EGuide> {
        Ok(self.clone()?)
    }

    fn raised(&self, alloc: Global, from: u32, by: u32) -> Result<EGuide, TreeStop> {
        self.shift(alloc, from, by)
    }
}

impl Tree for EGuideKind {
    fn levels(&self) -> u32 {
        self.depth()
    }

    fn is_open(&self) -> bool {
        self.has_unknown()
    }

    fn show(&self, page: &mut Page) {
        show_guide_kind(self, page);
    }

    fn copied(&self) -> Made<EGuideKind> {
        Ok(self.clone()?)
    }

    fn raised(&self, alloc: Global, from: u32, by: u32) -> Result<EGuideKind, TreeStop> {
        self.shift(alloc, from, by)
    }
}

impl Tree for ETerm {
    fn levels(&self) -> u32 {
        self.depth()
    }

    fn is_open(&self) -> bool {
        self.has_unknown()
    }

    fn show(&self, page: &mut Page) {
        show_term(self, page);
    }

    fn copied(&self) -> Made<ETerm> {
        Ok(self.clone()?)
    }

    fn raised(&self, alloc: Global, from: u32, by: u32) -> Result<ETerm, TreeStop> {
        self.shift(alloc, from, by)
    }
}

impl Tree for EType {
    fn levels(&self) -> u32 {
        self.depth()
    }

    fn is_open(&self) -> bool {
        self.has_unknown()
    }

    fn show(&self, page: &mut Page) {
        show_type(self, page);
    }

    fn copied(&self) -> Made<EType> {
        Ok(self.clone()?)
    }

    fn raised(&self, alloc: Global, from: u32, by: u32) -> Result<EType, TreeStop> {
        self.shift(alloc, from, by)
    }
}

impl Tree for EKind {
    fn levels(&self) -> u32 {
        self.depth()
    }

    fn is_open(&self) -> bool {
        self.has_unknown()
    }

    fn show(&self, page: &mut Page) {
        show_kind(self, page);
    }

    fn copied(&self) -> Made<EKind> {
        Ok(self.clone()?)
    }

    fn raised(&self, alloc: Global, from: u32, by: u32) -> Result<EKind, TreeStop> {
        self.shift(alloc, from, by)
    }
}

impl Puts<EPure> for EPure {
    fn put(&self, alloc: Global, at: u32, part: &EPure) -> Result<EPure, TreeStop> {
        self.put_pure(alloc, at, part)
    }
}

impl Puts<EPure> for EGuide {
    fn put(&self, alloc: Global, at: u32, part: &EPure) -> Result<EGuide, TreeStop> {
        self.put_pure(alloc, at, part)
    }
}

impl Puts<EPure> for EGuideKind {
    fn put(&self, alloc: Global, at: u32, part: &EPure) -> Result<EGuideKind, TreeStop> {
        self.put_pure(alloc, at, part)
    }
}

impl Puts<EGuide> for EGuide {
    fn put(&self, alloc: Global, at: u32, part: &EGuide) -> Result<EGuide, TreeStop> {
        self.put_guide(alloc, at, part)
    }
}

impl Puts<EGuide> for EGuideKind {
    fn put(&self, alloc: Global, at: u32, part: &EGuide) -> Result<EGuideKind, TreeStop> {
        self.put_guide(alloc, at, part)
    }
}

impl Puts<ETerm> for ETerm {
    fn put(&self, alloc: Global, at: u32, part: &ETerm) -> Result<ETerm, TreeStop> {
        self.put_term(alloc, at, part)
    }
}

impl Puts<ETerm> for EType {
    fn put(&self, alloc: Global, at: u32, part: &ETerm) -> Result<EType, TreeStop> {
        self.put_term(alloc, at, part)
    }
}

impl Puts<ETerm> for EKind {
    fn put(&self, alloc: Global, at: u32, part: &ETerm) -> Result<EKind, TreeStop> {
        self.put_term(alloc, at, part)
    }
}

impl Puts<EType> for ETerm {
    fn put(&self, alloc: Global, at: u32, part: &EType) -> Result<ETerm, TreeStop> {
        self.put_type(alloc, at, part)
    }
}

impl Puts<EType> for EType {
    fn put(&self, alloc: Global, at: u32, part: &EType) -> Result<EType, TreeStop> {
        self.put_type(alloc, at, part)
    }
}

impl Puts<EType> for EKind {
    fn put(&self, alloc: Global, at: u32, part: &EType) -> Result<EKind, TreeStop> {
        self.put_type(alloc, at, part)
    }
}

impl Solves for ETerm {
    fn solved(&self, alloc: Global, found: &[Option<EType>]) -> Result<ETerm, TreeStop> {
        self.solve(alloc, found)
    }
}

impl Erases<EPure> for ETerm {
    fn erased(&self, alloc: Global) -> Made<EPure> {
        self.erase(alloc)
    }
}

impl Solves for EType {
    fn solved(&self, alloc: Global, found: &[Option<EType>]) -> Result<EType, TreeStop> {
        self.solve(alloc, found)
    }
}

impl Erases<EGuide> for EType {
    fn erased(&self, alloc: Global) -> Made<EGuide> {
        self.erase(alloc)
    }
}

impl Solves for EKind {
    fn solved(&self, alloc: Global, found: &[Option<EType>]) -> Result<EKind, TreeStop> {
        self.solve(alloc, found)
    }
}

impl Erases<EGuideKind> for EKind {
    fn erased(&self, alloc: Global) -> Made<EGuideKind> {
        self.erase(alloc)
    }
}

/// The tree raised, and the same tree once more.
pub(crate) fn shift<T: Tree>(page: &mut Page, alloc: Global, from: u32, by: u32, tree: Made<T>) {
    let Ok(tree) = tree else {
        return page.word("no memory\n");
    };
    page.number("shift from ", from);
    page.number(" by ", by);
    page.word(":");
    page.tree(&tree);
    page.answer(tree.raised(alloc, from, by));
}

/// The depth of a copy of the tree.
pub(crate) fn size<T: Tree>(page: &mut Page, tree: Made<T>) {
    let Ok(tree) = tree else {
        return page.word("size: no memory\n");
    };
    let Ok(copy) = tree.copied() else {
        return page.word("size: no memory\n");
    };
    page.word("size:");
    page.tree(&tree);
    page.word(" =");
    page.size(&copy);
    page.word("\n");
}

fn put_part<T: Puts<P>, P: Tree>(page: &mut Page, alloc: Global, at: u32, part: &P, tree: &T) {
    page.number("put for ", at);
    page.word(":");
    page.tree(part);
    page.word(" in");
    page.tree(tree);
    page.answer(tree.put(alloc, at, part));
}

/// The part put for a variable of the tree.
pub(crate) fn put<T: Puts<P>, P: Tree>(
    page: &mut Page,
    alloc: Global,
    at: u32,
    part: Made<P>,
    tree: Made<T>,
) {
    let Ok(part) = part else {
        return page.word("no memory\n");
    };
    let Ok(tree) = tree else {
        return page.word("no memory\n");
    };
    put_part(page, alloc, at, &part, &tree);
}

/// The type as the solution of the unknown of that number, and none for those before it.
fn solution(alloc: Global, number: u32, ty: EType) -> Made<Vec<Option<EType>>> {
    let mut found = Vec::new(alloc);
    for _ in 0..number {
        found.push(None)?;
    }
    found.push(Some(ty))?;
    Ok(found)
}

/// The type put for an unknown of the tree.
pub(crate) fn solve<T: Solves>(
    page: &mut Page,
    alloc: Global,
    number: u32,
    ty: Made<EType>,
    tree: Made<T>,
) {
    let Ok(tree) = tree else {
        return page.word("no memory\n");
    };
    let Ok(ty) = ty else {
        return page.word("no memory\n");
    };
    page.number("solve ?", number);
    page.word(" by");
    page.tree(&ty);
    page.word(" in");
    page.tree(&tree);
    let Ok(found) = solution(alloc, number, ty) else {
        return page.word("no memory\n");
    };
    page.answer(tree.solved(alloc, &found));
}

/// What erasure leaves of the tree.
pub(crate) fn erase<T: Erases<E>, E: Tree>(page: &mut Page, alloc: Global, tree: Made<T>) {
    let Ok(tree) = tree else {
        return page.word("no memory\n");
    };
    page.word("erase:");
    page.tree(&tree);
    page.word(" =");
    match tree.erased(alloc) {
        Ok(erased) => page.tree(&erased),
        Err(_) => page.word(" no memory"),
    }
    page.word("\n");
}
