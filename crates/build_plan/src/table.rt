//! What is taken, by a table with a place for each module.
ghost use Rattle.std.specs.Prelude.{◌≡◌, ◌<◌, ◌↔◌, ℕ, true, false, Contains, IsTrue, MatchOption, IfSome, get_or, length};
ghost use Rattle.build_plan.specs.Tables.{CanBeNext, IsFirstLeft, IsTaken, needs_of};

/// Whether the module is taken.
pub(crate) fn is_taken(taken: &[bool], number: usize) -> bool
    ensures { result ≡ get_or taken.now number false }
{
    match taken.get(number) {
        Some(known) => *known,
        None => false,
    }
}

/// The first of these numbers that is not taken.
pub(crate) fn first_left(taken: &[bool], numbers: &[usize]) -> Option<usize>
    ensures { MatchOption result ((j : ℕ) → Contains numbers.now j → IsTaken taken.now j) (IsFirstLeft taken.now numbers.now) }
{
    for number in numbers {
        if !is_taken(taken, *number) {
            return Some(*number);
        }
    }
    None
}

/// Whether the module can be the next: it is not taken, and all that it imports is.
fn can_be_next(taken: &[bool], needs: &[Vec<usize>], number: usize) -> bool
    requires { number < length needs.now }
    ensures { IsTrue result ↔ CanBeNext (needs_of needs.now) taken.now number }
{
    if is_taken(taken, number) {
        return false;
    }
    let imports = &needs[number];
    first_left(taken, imports.as_slice()).is_none()
}

/// The lowest number of a module that can be the next.
pub(crate) fn lowest_next(taken: &[bool], needs: &[Vec<usize>]) -> Option<usize>
    ensures next { MatchOption result ((j : ℕ) → CanBeNext (needs_of needs.now) taken.now j → ⊥) (CanBeNext (needs_of needs.now) taken.now) }
    ensures lowest { IfSome result (λ i. (j : ℕ) → j < i → CanBeNext (needs_of needs.now) taken.now j → ⊥) }
{
    for number in 0..needs.len() {
        if can_be_next(taken, needs, number) {
            return Some(number);
        }
    }
    None
}

/// The lowest number of a module that is not taken.
pub(crate) fn lowest_left(taken: &[bool]) -> Option<usize>
    ensures left { MatchOption result ((j : ℕ) → j < length taken.now → IsTaken taken.now j) (λ i. (i < length taken.now) × (IsTaken taken.now i → ⊥)) }
    ensures lowest { IfSome result (λ i. (j : ℕ) → j < i → IsTaken taken.now j) }
{
    for number in 0..taken.len() {
        if !taken[number] {
            return Some(number);
        }
    }
    None
}
