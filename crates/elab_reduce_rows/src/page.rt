//! What is printed, and the line of a call.
use crate::Made;
use crate::show::show_type;
use elab_reduce::{ElabStop, head_type};
use elab_tree::{EType, Env};
use std::alloc::Global;

/// What a line asks for: a head form with so many units, with datatypes' names kept or not.
#[derive(Clone, Copy)]
pub(crate) enum Ask {
    Kept(u64),
    Unfolded(u64),
}

impl Ask {
    fn units(&self) -> u64 {
        match self {
            Ask::Kept(units) => *units,
            Ask::Unfolded(units) => *units,
        }
    }

    fn stops_at_data(&self) -> bool {
        match self {
            Ask::Kept(_) => true,
            Ask::Unfolded(_) => false,
        }
    }
}

/// The lines so far.
#[derive(Drop)]
pub(crate) struct Page {
    text: String,
    /// Whether there was no memory for a part of the text.
    is_short: bool,
}

impl Page {
    pub(crate) fn new(alloc: Global) -> Page {
        Page {
            text: String::new(alloc),
            is_short: false,
        }
    }

    pub(crate) fn text(&self) -> &str {
        if self.is_short {
            return "no memory for the lines\n";
        }
        self.text.as_str()
    }

    pub(crate) fn word(&mut self, word: &str) {
        if self.text.push_str(word).is_err() {
            self.is_short = true;
        }
    }

    /// The word and the number.
    pub(crate) fn number(&mut self, word: &str, number: u64) {
        if write!(self.text, "{word}{number}").is_err() {
            self.is_short = true;
        }
    }

    /// The line of one call: the type, what is asked, and the answer.
    pub(crate) fn head(&mut self, alloc: Global, env: &Env, ty: Made<EType>, ask: Ask) {
        match ty {
            Ok(ty) => self.head_of(alloc, env, &ty, ask),
            Err(_) => self.word("no memory for the type\n"),
        }
    }

    fn head_of(&mut self, alloc: Global, env: &Env, ty: &EType, ask: Ask) {
        self.word("head of");
        self.ty(ty);
        self.number(" with ", ask.units());
        self.word(" units");
        if ask.stops_at_data() {
            self.word(" and datatypes kept");
        }
        self.word(" =");
        self.answer(head_type(alloc, env, ty, ask.stops_at_data(), ask.units()));
        self.word("\n");
    }

    fn answer(&mut self, answer: Result<EType, ElabStop>) {
        match answer {
            Ok(head) => self.ty(&head),
            Err(ElabStop::Spent) => self.word(" spent"),
            Err(ElabStop::TooDeep) => self.word(" too deep"),
            Err(ElabStop::NoMemory) => self.word(" no memory"),
        }
    }

    /// The type, or its depth where that is large.
    fn ty(&mut self, ty: &EType) {
        if ty.depth() < 16 {
            show_type(ty, self);
        } else {
            self.number(" depth ", ty.depth() as u64);
        }
    }
}
