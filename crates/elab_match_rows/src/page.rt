//! What is printed.
use crate::Made;
use crate::show::show_type;
use elab_match::{Solution, instance};
use elab_tree::EType;
use std::alloc::Global;

/// The lines so far.
#[derive(Drop)]
pub(crate) struct Page {
    text: String,
    /// Whether there was no memory for a part of the text.
    is_short: bool,
}

impl Page {
    pub(crate) fn new(alloc: Global) -> Page {
        Page {
            text: String::new(alloc),
            is_short: false,
        }
    }

    pub(crate) fn text(&self) -> &str {
        if self.is_short {
            return "no memory for the lines\n";
        }
        self.text.as_str()
    }

    pub(crate) fn word(&mut self, word: &str) {
        if self.text.push_str(word).is_err() {
            self.is_short = true;
        }
    }

    /// The word and the number.
    pub(crate) fn number(&mut self, word: &str, number: u32) {
        if write!(self.text, "{word}{number}").is_err() {
            self.is_short = true;
        }
    }

    /// The type, or its depth.
    fn ty(&mut self, ty: &EType) {
        if ty.depth() < 16 {
            show_type(ty, self);
        } else {
            self.number(" depth ", ty.depth());
        }
    }

    /// What is found for each unknown.
    fn found(&mut self, solution: &Solution) {
        self.word(";");
        for number in 0..solution.len() {
            match solution.get(number) {
                Some(ty) => self.ty(ty),
                None => self.word(" -"),
            }
        }
        self.word("\n");
    }

    /// The line of a search.
    pub(crate) fn search(
        &mut self,
        alloc: Global,
        pattern: Made<EType>,
        target: Made<EType>,
        solution: &mut Solution,
    ) {
        match (pattern, target) {
            (Ok(pattern), Ok(target)) => {
                self.ty(&pattern);
                self.word(" as");
                self.ty(&target);
                match instance(alloc, &pattern, &target, solution) {
                    Ok(true) => self.word(": yes"),
                    Ok(false) => self.word(": no"),
                    Err(_) => self.word(": no memory"),
                }
                self.found(solution);
            }
            _ => self.word("no memory for a tree\n"),
        }
    }
}
