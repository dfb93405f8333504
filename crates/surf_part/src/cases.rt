//! Reading `μ`, `σ` and their branches.
ghost use Rattle.std.specs.Prelude.{◌≡◌, ◌∷◌, ◌++◌, [], ℕ, List, Ok, Some, None, length, ◌-◌, ◌<◌};
ghost use Rattle.source_model.specs.Grammar.{Branch, Branches, Make, Patterns, Read, Term, The, Token};
ghost use Rattle.source_model.specs.Grammar as m;
ghost use Rattle.source_model.specs.Made.{span};
ghost use Rattle.source_model.specs.Rows.{binding, case_rows, sign};
ghost use Rattle.source_model.specs.Parsing.{one};
ghost use Rattle.source_model.specs.declared.token.TokenKind.TheVariants as kinds;
ghost use Rattle.source_model.specs.declared.wanted.Wanted.TheVariants as wanteds;
ghost use Rattle.surf_tree.specs.Forms.{given};
ghost use Rattle.surf_reader.specs.View.{Branched, Goes, Told, branch_of, branch_row_behind, branches_of, case_making, case_under, given_of, here, name_tree, on_token, term_part};

use crate::terms::{motive, spine, term};
use source_model::{TokenKind, Wanted};
use surf_reader::{Named, ParseFault, Reader, between, to_term, used};
use surf_tree::{Src, SrcBranch, SrcClass, SrcPattern, SrcType};

/// What stands behind `μ x .`, or behind `σ` where no variable is given.
#[cycle(part)]
pub(crate) fn cases(
    reader: &Reader<'_>,
    left: u32,
    letter: Named,
    var: Option<Named>,
    at: usize,
) -> Result<((u32, Src), usize), ParseFault>
    ensures { (d : Token ℕ) → Goes reader.now term_part result (case_rows left ++ case_making var) (case_under d letter var) at }
{
    let ((_, part), at) = spine(reader, left, at)?;
    let ((_, motive), at) = motive(reader, left, at)?;
    let (_, at) = reader.sign(TokenKind::OpenBrace, at)?;
    case_branches(reader, left, letter, var, &part, motive, at)
}

/// The branches of `μ` and of `σ`, and their closing.
#[cycle(part)]
fn case_branches(
    reader: &Reader<'_>,
    left: u32,
    letter: Named,
    var: Option<Named>,
    part: &Src,
    motive: Option<SrcType>,
    at: usize,
) -> Result<((u32, Src), usize), ParseFault>
    ensures { (b d : Token ℕ) (f g : ℕ) → Goes reader.now term_part result (Read (Branches left) ∷ Read (The kinds.CloseBrace wanteds.Branch) ∷ case_making var)
        (λ vs. m.branches [] ∷ m.token b ∷ m.part g (given motive) ∷ m.part f part.now ∷ case_under d letter var vs) at }
{
    let (branches, at) = branches(reader, left, at)?;
    let (close, at) = reader.stands(TokenKind::CloseBrace, Wanted::Branch, at)?;
    let term = reader.case_of(letter, var, close, part, motive, branches)?;
    Ok(((letter.span.from, term), at))
}

/// What stands behind `μ`.
#[cycle(part)]
pub(crate) fn mu(
    reader: &Reader<'_>,
    left: u32,
    letter: Named,
    at: usize,
) -> Result<((u32, Src), usize), ParseFault>
    ensures { Goes reader.now term_part result (binding ∷ sign kinds.Period ∷ case_rows left ++ Make m.Mu ∷ []) (on_token letter) at }
{
    let (name, at) = reader.binding(at)?;
    let (_, at) = reader.sign(TokenKind::Period, at)?;
    cases(reader, left, letter, Some(name), at)
}

/// All the branches that follow.
#[cycle(part)]
fn branches(
    reader: &Reader<'_>,
    left: u32,
    at: usize,
) -> Result<(Vec<SrcBranch>, usize), ParseFault>
    ensures { Told reader.now branches_of result (λ vs. one (given_of reader.now) (Read (Branches left)) (here reader.now at (m.branches [] ∷ vs))) }
{
    let mut list = Vec::new(reader.alloc);
    let mut to = at;
    'branches: while let Some((branch, next)) = next_branch(reader, left, to)? {
        list.push(branch)?;
        to = next;
    }
    Ok((list, to))
}

/// The branch that is next, if one is.
#[cycle(part)]
fn next_branch(
    reader: &Reader<'_>,
    left: u32,
    at: usize,
) -> Result<Option<(SrcBranch, usize)>, ParseFault>
    ensures gives { Branched reader.now left at result }
    ensures moves { (x : _) → result ≡ Ok (Some x) → length reader.now.tokens.now - x.1 < length reader.now.tokens.now - at }
{
    match reader.taken(TokenKind::Bar, at) {
        None => Ok(None),
        Some(_) => Ok(Some(branch(reader, left, at + 1)?)),
    }
}

/// A branch, behind its `|`.
#[cycle(part)]
fn branch(reader: &Reader<'_>, left: u32, at: usize) -> Result<(SrcBranch, usize), ParseFault>
    ensures { (d : Token ℕ) (bs : List (Branch ℕ)) → Goes reader.now (branch_of bs) result (branch_row_behind left) (λ vs. m.token d ∷ m.branches bs ∷ vs) at }
{
    let (name, at) = reader.binding(at)?;
    let (second, at) = reader.owner(at)?;
    branch_behind(reader, left, name, second, at)
}

/// A branch, behind the name of its constructor.
#[cycle(part)]
fn branch_behind(
    reader: &Reader<'_>,
    left: u32,
    name: Named,
    second: Option<Named>,
    at: usize,
) -> Result<(SrcBranch, usize), ParseFault>
    ensures { (d : Token ℕ) (bs : List (Branch ℕ)) → Goes reader.now (branch_of bs) result (Read Patterns ∷ sign kinds.Arrow ∷ Read (Term left) ∷ Make m.ABranch ∷ [])
        (λ vs. m.patterns [] ∷ m.part name.span.from (name_tree name second) ∷ m.token d ∷ m.branches bs ∷ vs) at }
{
    let (args, at) = reader.patterns(at)?;
    let (_, at) = reader.sign(TokenKind::Arrow, at)?;
    let ((_, part), at) = term(reader, left, at)?;
    let (ctor, span) = used(name, second);
    let branch = SrcBranch {
        ctor,
        span,
        args,
        part,
    };
    Ok((branch, at))
}
