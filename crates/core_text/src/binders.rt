//! What a name stands for.
ghost use Rattle.std.specs.Prelude.{◌≡◌, ◌+◌, ◌<◌, ◌≤◌, ◌^◌, length};
ghost use Rattle.cdle_model.specs.CoreNames.{binder_of, stands};
ghost use Rattle.core_text.specs.Scope.{known_names, meaning, names, scope_of};

use crate::scope::CoreScope;
use cdle_model::Sort;

/// The binders around a place, the innermost first.
#[derive(Drop)]
pub(crate) enum Binders<'a> {
    Outermost,
    Inside(&'a [u8], Sort, &'a Binders<'a>),
}

/// What a name stands for.
#[derive(Clone, Copy)]
pub(crate) enum Meaning {
    Var(u32),
    Name(u32),
}

fn find_binder(binders: &Binders<'_>, word: &[u8]) -> Option<(Sort, Meaning)>
    requires { length (names binders.now) ≤ 1024 }
    ensures { meaning result ≡ binder_of word.now 0 (names binders.now) }
{
    let mut index = 0u32;
    let mut rest = binders;
    while let Binders::Inside(name, sort, outer) = rest {
        if word == *name {
            return Some((*sort, Meaning::Var(index)));
        }
        index += 1;
        rest = outer;
    }
    None
}

/// What a word stands for: the innermost binder, else the latest item of the file, else the latest of the earlier files.
#[tactic(auto, unfolding(cdle_model::specs::CoreNames::stands), using(crate::proofs::Names::name_rules))]
pub(crate) fn find(
    binders: &Binders<'_>,
    own: &CoreScope,
    known: &CoreScope,
    word: &[u8],
) -> Option<(Sort, Meaning)>
    requires nested { length (names binders.now) ≤ 1024 }
    requires counted { length (known_names own.now) + length (known_names known.now) < 2 ^ 32 }
    ensures { meaning result ≡ stands word.now (scope_of binders.now own.now known.now) }
{
    match find_binder(binders, word) {
        Some(found) => Some(found),
        None => match own.find(word) {
            Some((sort, number)) => Some((sort, Meaning::Name(known.len() + number))),
            None => match known.find(word) {
                Some((sort, number)) => Some((sort, Meaning::Name(number))),
                None => None,
            },
        },
    }
}
