//! The calls once each, and the rows that are told by hand, with what builds their trees.
ghost use Rattle.std.specs.Prelude.{◌≡◌, ◌≤◌, IfOk};
ghost use Rattle.cdle_model.specs.Trees.{IsBelow};
ghost use Rattle.cdle_model.specs.Depth.{depth};

use cdle_model::Text;
use core_tree::{
    CoreItem, Guide, GuideForm, GuideKind, GuideKindForm, Kind, NoMemory, Pure, PureForm, PutStop,
    Term, Ty,
};
use std::alloc::Global;

/// The variable 0 applied that many times to a name.
fn applied(alloc: Global, times: u32) -> Result<Pure, NoMemory>
    requires { times ≤ 65535 }
    ensures deep { IfOk result (λ t. depth t ≡ times) }
    ensures below { IfOk result (λ t. IsBelow 4290000000 t) }
{
    if times == 0 {
        return Pure::var(alloc, 0);
    }
    let head = applied(alloc, times - 1)?;
    let name = Pure::name(alloc, 0)?;
    Pure::ap(alloc, &head, &name)
}

/// Functions that deep over a variable.
fn functions(alloc: Global, levels: u32, index: u32) -> Result<Pure, NoMemory>
    requires { levels ≤ 65535 }
    ensures { IfOk result (λ t. depth t ≡ levels) }
{
    if levels == 0 {
        return Pure::var(alloc, index);
    }
    let part = functions(alloc, levels - 1, index)?;
    Pure::function(alloc, &part)
}

/// How deep functions that deep are with a tree that deep put for their free variable.
#[tactic(auto, using(crate::proofs::Scoping::pure_used))]
fn put_depth(alloc: Global, levels: u32, times: u32) -> Result<u32, PutStop>
    requires levels_fit { levels ≤ 65535 }
    requires times_fit { times ≤ 65535 }
{
    let tree = functions(alloc, levels, levels)?;
    let part = applied(alloc, times)?;
    tree.known();
    let whole = tree.put_pure(alloc, 0, &part)?;
    Ok(whole.depth())
}

/// A tree of more than `2 ^ levels` nodes that is made of few.
fn doubled(alloc: Global, part: Pure, levels: u32) -> Result<Pure, NoMemory> {
    let mut tree = part;
    for _ in 0..levels {
        if tree.depth() < 65535 {
            tree = Pure::ap(alloc, &tree, &tree)?;
        }
    }
    Ok(tree)
}

/// Puts the variable 0 for itself that often, beside a closed tree of more than `2 ^ levels` nodes.
#[tactic(auto, using(crate::proofs::Scoping::pure_used))]
fn put_often(alloc: Global, levels: u32, times: u32) -> Result<u32, PutStop> {
    let part = Pure::var(alloc, 0)?;
    let identity = Pure::function(alloc, &part)?;
    let closed = doubled(alloc, identity, levels)?;
    if closed.depth() >= 65535 {
        return Err(PutStop::TooDeep);
    }
    let mut whole = Pure::ap(alloc, &closed, &part)?;
    for _ in 0..times {
        whole.known();
        whole = whole.put_pure(alloc, 0, &part)?;
    }
    Ok(whole.depth())
}

/// Puts a name for the free variable of a tree of more than `2 ^ levels` nodes.
#[tactic(auto, using(crate::proofs::Scoping::pure_used))]
fn put_everywhere(alloc: Global, levels: u32) -> Result<u32, PutStop> {
    let variable = Pure::var(alloc, 0)?;
    let tree = doubled(alloc, variable, levels)?;
    let part = Pure::name(alloc, 0)?;
    tree.known();
    let whole = tree.put_pure(alloc, 0, &part)?;
    Ok(whole.depth())
}

/// The erasure of `(xlam X * (elam x X (lam y X (app y z))))`, where z is the innermost variable of the context.
fn erasure(alloc: Global) -> Result<Pure, NoMemory> {
    let star = Kind::star(alloc)?;
    let first = Ty::var(alloc, 0)?;
    let second = Ty::var(alloc, 1)?;
    let y = Term::var(alloc, 0)?;
    let z = Term::var(alloc, 3)?;
    let body = Term::app(alloc, &y, &z)?;
    let inner = Term::lam(alloc, &second, &body)?;
    let middle = Term::elam(alloc, &first, &inner)?;
    let outer = Term::xlam(alloc, &star, &middle)?;
    outer.erase(alloc)
}

/// Whether the tree is a function that applies its own variable to the variable outside it.
fn is_applied_inside(tree: &Pure) -> bool {
    let PureForm::Function(part) = tree.form() else {
        return false;
    };
    let PureForm::Ap(head, arg) = part.form() else {
        return false;
    };
    matches!(head.form(), PureForm::Var(0)) && matches!(arg.form(), PureForm::Var(1))
}

/// The variable 4 raised by 3 in a guide and in a guide kind, and put for in both by a name.
fn guide_changes(alloc: Global) -> Result<bool, PutStop> {
    let variable = Guide::var(alloc, 4)?;
    let raised = variable.shift(alloc, 4, 3)?;
    let part = Guide::name(alloc, 5)?;
    let put = variable.put_guide(alloc, 4, &part)?;
    let pure = Pure::name(alloc, 6)?;
    let lowered = variable.put_pure(alloc, 3, &pure)?;
    Ok(
        matches!(raised.form(), GuideForm::Var(7))
            && matches!(put.form(), GuideForm::Name(5))
            && matches!(lowered.form(), GuideForm::Var(3)),
    )
}

/// The same calls on a guide kind that has no variable.
fn guide_kind_changes(alloc: Global) -> Result<bool, PutStop> {
    let star = GuideKind::star(alloc)?;
    let raised = star.shift(alloc, 0, 3)?;
    let part = Guide::name(alloc, 5)?;
    let put = raised.put_guide(alloc, 0, &part)?;
    let pure = Pure::name(alloc, 6)?;
    let put = put.put_pure(alloc, 0, &pure)?;
    Ok(matches!(put.form(), GuideKindForm::Star))
}

/// What is left of a type and of a kind over it.
fn written_erasures(alloc: Global) -> Result<bool, NoMemory> {
    let ty = Ty::var(alloc, 2)?;
    let star = Kind::star(alloc)?;
    let kind = Kind::kpi(alloc, &ty, &star)?;
    let guide = ty.erase(alloc)?;
    let guide_kind = kind.erase(alloc)?;
    Ok(
        matches!(guide.form(), GuideForm::Var(2))
            && matches!(guide_kind.form(), GuideKindForm::Kpi(_, _)),
    )
}

/// The item that defines a type under a kind over it.
fn type_item(alloc: Global) -> Result<CoreItem, NoMemory> {
    let body = Ty::var(alloc, 2)?;
    let star = Kind::star(alloc)?;
    let kind = Kind::kpi(alloc, &body, &star)?;
    let Ok(name) = Text::new(alloc, "x") else {
        return Err(NoMemory);
    };
    Ok(CoreItem::TypeDef { name, kind, body })
}

/// Whether a copy of the item has its name.
fn item_copy(alloc: Global) -> Result<bool, NoMemory> {
    let item = type_item(alloc)?;
    let copy = item.copy(alloc)?;
    Ok(copy.name().as_str() == "x")
}

#[cfg(test)]
mod tests {
    use super::*;
    use crate::forms::*;

    #[test]
    fn pure_forms(rt: HostRuntime) {
        let leaves = Leaves::new(rt.alloc()).expect(&rt, "memory");
        for form in 0..4u32 {
            let tree = pure_of(rt.alloc(), &leaves, form).expect(&rt, "memory");
            assert_eq!(rt; pure_form(&tree), form);
            assert_eq!(rt; tree.depth(), if form < 2 { 0 } else { 1 });
        }
    }

    #[test]
    fn guide_forms(rt: HostRuntime) {
        let leaves = Leaves::new(rt.alloc()).expect(&rt, "memory");
        for form in 0..11u32 {
            let tree = guide_of(rt.alloc(), &leaves, form).expect(&rt, "memory");
            assert_eq!(rt; guide_form(&tree), form);
            assert_eq!(rt; tree.depth(), if form < 2 { 0 } else { 1 });
        }
    }

    #[test]
    fn guide_kind_forms(rt: HostRuntime) {
        let leaves = Leaves::new(rt.alloc()).expect(&rt, "memory");
        for form in 0..3u32 {
            let tree = guide_kind_of(rt.alloc(), &leaves, form).expect(&rt, "memory");
            assert_eq!(rt; guide_kind_form(&tree), form);
            assert_eq!(rt; tree.depth(), if form < 1 { 0 } else { 1 });
        }
    }

    #[test]
    fn term_forms(rt: HostRuntime) {
        let leaves = Leaves::new(rt.alloc()).expect(&rt, "memory");
        for form in 0..15u32 {
            let tree = term_of(rt.alloc(), &leaves, form).expect(&rt, "memory");
            assert_eq!(rt; term_form(&tree), form);
            assert_eq!(rt; tree.depth(), if form < 2 { 0 } else { 1 });
        }
    }

    #[test]
    fn ty_forms(rt: HostRuntime) {
        let leaves = Leaves::new(rt.alloc()).expect(&rt, "memory");
        for form in 0..11u32 {
            let tree = ty_of(rt.alloc(), &leaves, form).expect(&rt, "memory");
            assert_eq!(rt; ty_form(&tree), form);
            assert_eq!(rt; tree.depth(), if form < 2 { 0 } else { 1 });
        }
    }

    #[test]
    fn kind_forms(rt: HostRuntime) {
        let leaves = Leaves::new(rt.alloc()).expect(&rt, "memory");
        for form in 0..3u32 {
            let tree = kind_of(rt.alloc(), &leaves, form).expect(&rt, "memory");
            assert_eq!(rt; kind_form(&tree), form);
            assert_eq!(rt; tree.depth(), if form < 1 { 0 } else { 1 });
        }
    }

    #[test]
    fn changes(rt: HostRuntime) {
        let left = erasure(rt.alloc()).expect(&rt, "memory");
        assert!(rt; is_applied_inside(&left));
        assert!(rt; matches!(guide_changes(rt.alloc()), Ok(true)));
        assert!(rt; matches!(guide_kind_changes(rt.alloc()), Ok(true)));
        assert!(rt; matches!(written_erasures(rt.alloc()), Ok(true)));
        assert!(rt; matches!(item_copy(rt.alloc()), Ok(true)));
    }

    #[test]
    fn deepest_put(rt: HostRuntime) {
        assert!(rt; matches!(put_depth(rt.alloc(), 4000, 96), Ok(4096)));
        assert!(rt; matches!(put_depth(rt.alloc(), 4000, 97), Err(PutStop::TooDeep)));
    }

    #[test]
    fn shared_trees(rt: HostRuntime) {
        assert!(rt; matches!(put_often(rt.alloc(), 20, 10000), Ok(22)));
        assert!(rt; matches!(put_everywhere(rt.alloc(), 10), Ok(10)));
        assert!(rt; matches!(put_everywhere(rt.alloc(), 60), Err(PutStop::NoMemory)));
    }
}
