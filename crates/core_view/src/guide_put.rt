//! Putting a part for a variable of the erasure of a written type or kind. Each written node is read once, and the new node is made at once.
ghost use Rattle.std.specs.Prelude.{◌≡◌, ◌+◌, ◌<◌, ◌≤◌, IfOk};
ghost use Rattle.cdle_model.specs.Classes.{UsedAs, guide_kinds, guides, pure_terms};
ghost use Rattle.cdle_model.specs.Depth.{depth};
ghost use Rattle.cdle_model.specs.Erasure.{erased};
ghost use Rattle.cdle_model.specs.Forms.{allt, at_, eq, kpi, kpit, on};
ghost use Rattle.cdle_model.specs.Trees.{IsBelow, Tree, put, shift, var};
ghost use Rattle.core_tree.specs.Nodes.{PutGives};
ghost use Rattle.core_tree.specs.Parts.{part_sort, part_tree};
ghost use Rattle.core_tree.specs.Products.{product_tree};

use crate::passed::Passed;
use crate::pure_put::{put_built, put_written};
use cdle_model::NoMemory;
use core_tree::{Guide, GuideKind, Kind, KindForm, Part, Product, Pure, PutStop, Term, Ty, TyForm};
use std::alloc::Global;

/// The type's erasure with the part in the place of the variable `under`, and the variables above it lowered.
#[cycle(put)]
#[tactic(auto, using(crate::proofs::Puts::putting))]
pub(crate) fn put_type(
    alloc: Global,
    ty: &Ty,
    under: u32,
    part: &Part<'_>,
) -> Result<Guide, PutStop>
    requires used { UsedAs (part_sort part.now) under guides (erased ty.now) }
    requires below { IsBelow 4290000000 (part_tree part.now) }
    requires fits { under + depth ty.now ≤ 4096 }
    ensures { PutGives (put under (shift 0 under (part_tree part.now)) (erased ty.now)) result }
{
    match ty.form() {
        TyForm::Var(index) => put_number(alloc, *index, under, part),
        TyForm::Name(item) => shallow(Guide::name(alloc, *item)),
        TyForm::Pi(domain, inner) => put_product(alloc, Product::Pi, domain, inner, under, part),
        TyForm::All(domain, inner) => put_product(alloc, Product::All, domain, inner, under, part),
        TyForm::Iota(left, right) => put_product(alloc, Product::Iota, left, right, under, part),
        TyForm::Allt(domain, inner) => put_allt(alloc, domain, inner, under, part),
        TyForm::Tlam(_, inner) => {
            let inner = put_type(alloc, inner, under + 1, part)?;
            shallow(Guide::tlam(alloc, &inner))
        }
        TyForm::Xtlam(_, inner) => {
            let inner = put_type(alloc, inner, under + 1, part)?;
            shallow(Guide::xtlam(alloc, &inner))
        }
        TyForm::At(head, arg) => {
            let head = put_type(alloc, head, under, part)?;
            put_at(alloc, &head, arg, under, part)
        }
        TyForm::On(head, arg) => put_on(alloc, head, arg, under, part),
        TyForm::Eq(left, right) => put_eq(alloc, left, right, under, part),
    }
}

/// The same of a product of a type and a type over its variable.
#[cycle(put)]
#[tactic(auto, using(crate::proofs::Puts::putting))]
fn put_product(
    alloc: Global,
    product: Product,
    domain: &Ty,
    inner: &Ty,
    under: u32,
    part: &Part<'_>,
) -> Result<Guide, PutStop>
    requires used { UsedAs (part_sort part.now) under guides (product_tree product (erased domain.now) (erased inner.now)) }
    requires below { IsBelow 4290000000 (part_tree part.now) }
    requires fits { under + depth (product_tree product domain.now inner.now) ≤ 4096 }
    ensures { PutGives (put under (shift 0 under (part_tree part.now)) (product_tree product (erased domain.now) (erased inner.now))) result }
{
    let domain = put_type(alloc, domain, under, part)?;
    let inner = put_type(alloc, inner, under + 1, part)?;
    shallow(product_of(alloc, product, &domain, &inner))
}

#[cycle(put)]
#[tactic(auto, using(crate::proofs::Puts::putting))]
fn put_allt(
    alloc: Global,
    domain: &Kind,
    inner: &Ty,
    under: u32,
    part: &Part<'_>,
) -> Result<Guide, PutStop>
    requires used { UsedAs (part_sort part.now) under guides (allt (erased domain.now) (erased inner.now)) }
    requires below { IsBelow 4290000000 (part_tree part.now) }
    requires fits { under + depth (allt domain.now inner.now) ≤ 4096 }
    ensures { PutGives (put under (shift 0 under (part_tree part.now)) (allt (erased domain.now) (erased inner.now))) result }
{
    let domain = put_kind(alloc, domain, under, part)?;
    let inner = put_type(alloc, inner, under + 1, part)?;
    shallow(Guide::allt(alloc, &domain, &inner))
}

#[cycle(put)]
#[tactic(auto, using(crate::proofs::Puts::putting))]
fn put_on(alloc: Global, head: &Ty, arg: &Ty, under: u32, part: &Part<'_>) -> Result<Guide, PutStop>
    requires used { UsedAs (part_sort part.now) under guides (on (erased head.now) (erased arg.now)) }
    requires below { IsBelow 4290000000 (part_tree part.now) }
    requires fits { under + depth (on head.now arg.now) ≤ 4096 }
    ensures { PutGives (put under (shift 0 under (part_tree part.now)) (on (erased head.now) (erased arg.now))) result }
{
    let head = put_type(alloc, head, under, part)?;
    let arg = put_type(alloc, arg, under, part)?;
    shallow(Guide::on(alloc, &head, &arg))
}

/// The kind's erasure with the part in the place of the variable `under`, and the variables above it lowered.
#[cycle(put)]
#[tactic(auto, using(crate::proofs::Puts::putting))]
fn put_kind(alloc: Global, kind: &Kind, under: u32, part: &Part<'_>) -> Result<GuideKind, PutStop>
    requires used { UsedAs (part_sort part.now) under guide_kinds (erased kind.now) }
    requires below { IsBelow 4290000000 (part_tree part.now) }
    requires fits { under + depth kind.now ≤ 4096 }
    ensures { PutGives (put under (shift 0 under (part_tree part.now)) (erased kind.now)) result }
{
    match kind.form() {
        KindForm::Star => shallow_kind(GuideKind::star(alloc)),
        KindForm::Kpi(domain, inner) => put_kpi(alloc, domain, inner, under, part),
        KindForm::Kpit(domain, inner) => put_kpit(alloc, domain, inner, under, part),
    }
}

#[cycle(put)]
#[tactic(auto, using(crate::proofs::Puts::putting))]
fn put_kpi(
    alloc: Global,
    domain: &Ty,
    inner: &Kind,
    under: u32,
    part: &Part<'_>,
) -> Result<GuideKind, PutStop>
    requires used { UsedAs (part_sort part.now) under guide_kinds (kpi (erased domain.now) (erased inner.now)) }
    requires below { IsBelow 4290000000 (part_tree part.now) }
    requires fits { under + depth (kpi domain.now inner.now) ≤ 4096 }
    ensures { PutGives (put under (shift 0 under (part_tree part.now)) (kpi (erased domain.now) (erased inner.now))) result }
{
    let domain = put_type(alloc, domain, under, part)?;
    let inner = put_kind(alloc, inner, under + 1, part)?;
    shallow_kind(GuideKind::kpi(alloc, &domain, &inner))
}

#[cycle(put)]
#[tactic(auto, using(crate::proofs::Puts::putting))]
fn put_kpit(
    alloc: Global,
    domain: &Kind,
    inner: &Kind,
    under: u32,
    part: &Part<'_>,
) -> Result<GuideKind, PutStop>
    requires used { UsedAs (part_sort part.now) under guide_kinds (kpit (erased domain.now) (erased inner.now)) }
    requires below { IsBelow 4290000000 (part_tree part.now) }
    requires fits { under + depth (kpit domain.now inner.now) ≤ 4096 }
    ensures { PutGives (put under (shift 0 under (part_tree part.now)) (kpit (erased domain.now) (erased inner.now))) result }
{
    let domain = put_kind(alloc, domain, under, part)?;
    let inner = put_kind(alloc, inner, under + 1, part)?;
    shallow_kind(GuideKind::kpit(alloc, &domain, &inner))
}

/// The head applied to the argument's erasure with the part in the place of the variable `under`, and the variables above it lowered.
#[tactic(auto, using(crate::proofs::Puts::putting))]
fn put_at(
    alloc: Global,
    head: &Guide,
    arg: &Term,
    under: u32,
    part: &Part<'_>,
) -> Result<Guide, PutStop>
    requires used { UsedAs (part_sort part.now) under pure_terms (erased arg.now) }
    requires below { IsBelow 4290000000 (part_tree part.now) }
    requires fits { under + depth arg.now ≤ 4096 }
    requires room { depth head.now < 65535 }
    ensures { PutGives (at_ head.now (put under (shift 0 under (part_tree part.now)) (erased arg.now))) result }
{
    let arg = put_written(alloc, arg, &Passed::none(), 0, under, part)?;
    shallow(Guide::at(alloc, head, &arg))
}

/// The equation of the two pure terms with the part in the place of the variable `under`, and the variables above it lowered.
#[tactic(auto, using(crate::proofs::Puts::putting))]
fn put_eq(
    alloc: Global,
    left: &Pure,
    right: &Pure,
    under: u32,
    part: &Part<'_>,
) -> Result<Guide, PutStop>
    requires used { UsedAs (part_sort part.now) under guides (eq left.now right.now) }
    requires below { IsBelow 4290000000 (part_tree part.now) }
    requires fits { under + depth (eq left.now right.now) ≤ 4096 }
    ensures { PutGives (put under (shift 0 under (part_tree part.now)) (eq left.now right.now)) result }
{
    let none = Passed::none();
    let left = put_built(alloc, left, &none, 0, under, part)?;
    let right = put_built(alloc, right, &none, 0, under, part)?;
    shallow(Guide::eq(alloc, &left, &right))
}

#[tactic(auto, using(crate::proofs::Puts::putting))]
fn put_number(alloc: Global, number: u32, under: u32, part: &Part<'_>) -> Result<Guide, PutStop>
    requires used { UsedAs (part_sort part.now) under guides (var number) }
    requires below { IsBelow 4290000000 (part_tree part.now) }
    requires fits { under ≤ 4096 }
    ensures { PutGives (put under (shift 0 under (part_tree part.now)) (var number)) result }
{
    if number < under {
        return shallow(Guide::var(alloc, number));
    }
    if number > under {
        return shallow(Guide::var(alloc, number - 1));
    }
    match part {
        Part::Guide(part) => {
            if part.depth() > 4096 {
                return Err(PutStop::TooDeep);
            }
            part.known();
            Ok(part.shift(alloc, 0, under)?)
        }
        Part::Pure(_) => unreachable!(),
    }
}

fn product_of(
    alloc: Global,
    product: Product,
    domain: &Guide,
    inner: &Guide,
) -> Result<Guide, NoMemory>
    requires domain_depth { depth domain.now < 65535 }
    requires inner_depth { depth inner.now < 65535 }
    ensures { IfOk result (λ t. t ≡ product_tree product domain.now inner.now) }
{
    match product {
        Product::Pi => Guide::pi(alloc, domain, inner),
        Product::All => Guide::all(alloc, domain, inner),
        Product::Iota => Guide::iota(alloc, domain, inner),
    }
}

/// The guide that was made, where it is not too deep.
fn shallow(made: Result<Guide, NoMemory>) -> Result<Guide, PutStop>
    ensures { (t : Tree) → IfOk made (λ m. m ≡ t) → PutGives t result }
{
    let tree = made?;
    if tree.depth() > 4096 {
        return Err(PutStop::TooDeep);
    }
    Ok(tree)
}

/// The guide kind that was made, where it is not too deep.
fn shallow_kind(made: Result<GuideKind, NoMemory>) -> Result<GuideKind, PutStop>
    ensures { (t : Tree) → IfOk made (λ m. m ≡ t) → PutGives t result }
{
    let tree = made?;
    if tree.depth() > 4096 {
        return Err(PutStop::TooDeep);
    }
    Ok(tree)
}
