//! The outcome of a module's file that comes to no Core text.
ghost use Rattle.std.specs.Prelude.{◌≡◌, ◌≤◌, ◌++◌, ◌∷◌, [], IfOk, List, ℕ, Ok, OnOk, length, map};
ghost use Rattle.build_module.specs.Answers.{IsModuleFault, IsScopeFault, IsSourceFault};
ghost use Rattle.build_module.specs.ModuleAnswers.{ModuleAnswer};
ghost use Rattle.build_outcome.specs.declared.outcome.Outcome.TheVariants as outcomes;
ghost use Rattle.build_outcome.specs.declared.outcome.Spot.TheVariants.{FileSpot};
ghost use Rattle.build_source.specs.Ends.{IsEndOf, spelled_in};
ghost use Rattle.cdle_folder.specs.Files.{Bytes};
ghost use Rattle.scoped_tree.specs.Trees.{place};
ghost use Rattle.source_model.specs.SurfaceTokens.{TextToken, lexed};
ghost use Rattle.source_model.specs.TokenParts.{AreTokens, HasTokens};
ghost use Rattle.surf_lex.specs.Fronts.{token_of};

use build_module::ModuleFault;
use build_outcome::{Badness, Outcome, Reason, Spot, wanted_text};
use cdle_model::{Count, NoMemory, Text};
use cdle_names::Span;
use std::alloc::Global;
use surf_lex::{Token, lex};
use surf_scope::ScopeFault;
use surf_source::SourceFault;

/// The outcome of a fault of the module's file with these bytes.
pub(crate) fn end_of(
    alloc: Global,
    file: &str,
    source: &[u8],
    budget: u64,
    fault: ModuleFault,
) -> Result<Outcome, NoMemory>
    requires short { length source.now ≤ 1048576 }
    ensures { IfOk result (λ o. (a : ModuleAnswer) → IsModuleFault (λ b. b ≡ a) fault → IsEndOf budget file.now source.now a o) }
{
    match fault {
        ModuleFault::Source(fault) => source_fault(alloc, file, fault),
        ModuleFault::ManyItems => past_limit(alloc, file, Count::Items),
        ModuleFault::Scope(fault) => scope_fault(alloc, file, source, fault),
        ModuleFault::NotBuilt { span } => refused_at(alloc, file, span, Reason::NotBuilt),
        ModuleFault::Refused { span, code } => {
            refused_at(alloc, file, span, Reason::Surface(code))
        }
        ModuleFault::Spent { span } => Ok(Outcome::Undecided {
            place: spot(alloc, file, span)?,
            budget,
        }),
        ModuleFault::TooDeep { item } => Ok(Outcome::Limit {
            name: item,
            what: Count::Depth,
        }),
        ModuleFault::NoMemory => Err(NoMemory),
    }
}

/// That more than may be of this is in the file.
fn past_limit(alloc: Global, file: &str, what: Count) -> Result<Outcome, NoMemory>
    ensures { IfOk result (λ o. o ≡ outcomes.Limit file.now what) }
{
    Ok(Outcome::Limit {
        name: Text::new(alloc, file)?,
        what,
    })
}

/// That what begins there in the file is refused.
fn refused_at(alloc: Global, file: &str, span: Span, why: Reason) -> Result<Outcome, NoMemory>
    ensures { IfOk result (λ o. o ≡ outcomes.Refused (FileSpot file.now span.from) why) }
{
    Ok(Outcome::Refused {
        place: spot(alloc, file, span)?,
        why,
    })
}

/// Where the place begins in the file.
fn spot(alloc: Global, file: &str, span: Span) -> Result<Spot, NoMemory>
    ensures { IfOk result (λ s. s ≡ FileSpot file.now span.from) }
{
    Ok(Spot::FileSpot {
        file: Text::new(alloc, file)?,
        at: span.from,
    })
}

/// The outcome of bytes that are no module.
fn source_fault(alloc: Global, file: &str, fault: SourceFault) -> Result<Outcome, NoMemory>
    ensures { IfOk result (λ o. (n : ℕ) (text : Bytes) (a : ModuleAnswer) → IsSourceFault (λ b. b ≡ a) fault → IsEndOf n file.now text a o) }
{
    let (at, what) = match fault {
        SourceFault::NotUtf8 { at } => (at, Badness::NotUtf8),
        SourceFault::BadCharacter { at } => (at, Badness::BadCharacter),
        SourceFault::OpenComment { at } => (at, Badness::OpenComment),
        SourceFault::Unexpected { at, wanted } => {
            (at, Badness::Wanted(Text::new(alloc, wanted_text(wanted))?))
        }
        SourceFault::TooDeep { .. } => return past_limit(alloc, file, Count::Nesting),
        SourceFault::TooMany { what, .. } => return past_limit(alloc, file, what),
        SourceFault::NoMemory => return Err(NoMemory),
    };
    malformed(alloc, file, at, what)
}

/// That the file is malformed at that byte.
fn malformed(alloc: Global, file: &str, at: u32, what: Badness) -> Result<Outcome, NoMemory>
    ensures { IfOk result (λ o. o ≡ outcomes.Malformed file.now at what) }
{
    Ok(Outcome::Malformed {
        file: Text::new(alloc, file)?,
        at,
        what,
    })
}

/// The outcome of a fault of scope.
fn scope_fault(
    alloc: Global,
    file: &str,
    source: &[u8],
    fault: ScopeFault,
) -> Result<Outcome, NoMemory>
    requires short { length source.now ≤ 1048576 }
    ensures { IfOk result (λ o. (n : ℕ) (a : ModuleAnswer) → IsScopeFault (λ b. b ≡ a) fault → IsEndOf n file.now source.now a o) }
{
    match fault {
        ScopeFault::Unbound { span } => {
            let name = name_in(alloc, source, span)?;
            malformed(alloc, file, span.from, Badness::Unbound(name))
        }
        ScopeFault::WrongClass { span } => {
            let name = name_in(alloc, source, span)?;
            malformed(alloc, file, span.from, Badness::WrongClass(name))
        }
        ScopeFault::Twice { span } => {
            let name = name_in(alloc, source, span)?;
            malformed(alloc, file, span.from, Badness::Twice(name))
        }
        ScopeFault::NoMemory => Err(NoMemory),
    }
}

/// The tokens of the text that stand in the place, one behind the other: a name, or two with `#` between them.
fn name_in(alloc: Global, source: &[u8], span: Span) -> Result<Text, NoMemory>
    requires short { length source.now ≤ 1048576 }
    ensures cut { IfOk result (λ _. HasTokens source.now) }
    ensures spelled { IfOk result (λ name. (ts : List TextToken) → lexed source.now ≡ Ok ts → name ≡ spelled_in source.now (place span) ts) }
{
    // Never that it is no text or has no tokens: it is a module's.
    let Ok(text) = std::str::from_utf8(source) else {
        return Err(NoMemory);
    };
    let Ok(tokens) = lex(alloc, text) else {
        return Err(NoMemory);
    };
    let spelled = spelled(alloc, source, &tokens, span)?;
    // Never that these are no text: each token is one.
    let Ok(name) = String::from_utf8(spelled) else {
        return Err(NoMemory);
    };
    Ok(Text::new(alloc, name.as_str())?)
}

/// The bytes of the tokens that stand in the place.
fn spelled(
    alloc: Global,
    source: &[u8],
    tokens: &Vec<Token>,
    span: Span,
) -> Result<Vec<u8>, NoMemory>
    requires tokens { AreTokens source.now 0 (map token_of tokens.now.items) }
    ensures { IfOk result (λ bytes. bytes.items ≡ spelled_in source.now (place span) (map token_of tokens.now.items)) }
{
    let mut bytes = Vec::new(alloc);
    let mut at = 0;
    'tokens: while at < tokens.len() {
        let token = tokens[at];
        add_token(source, token, span, &mut bytes)?;
        at += 1;
    }
    Ok(bytes)
}

/// Adds the bytes of the token where it stands in the place.
fn add_token(source: &[u8], token: Token, span: Span, bytes: &mut Vec<u8>) -> Result<(), NoMemory>
    requires ahead { token.span.from ≤ token.span.to }
    requires within { token.span.to ≤ length source.now }
    ensures { OnOk result (bytes.new.items ≡ bytes.old.items ++ spelled_in source.now (place span) (token_of token ∷ [])) }
{
    if span.from <= token.span.from && token.span.to <= span.to {
        let from = token.span.from as usize;
        let to = token.span.to as usize;
        bytes.extend_from_slice(&source[from..to])?;
    }
    Ok(())
}
