//! The scope of the parts of trees.
ghost use Rattle.std.specs.Prelude.{◌≡◌, ◌∷◌, [], map, IfOk};
ghost use Rattle.cdle_model.specs.declared.grammar.Sort.TheVariants.{OfTerm, OfType};
ghost use Rattle.source_model.specs.Source.{bind, cases, leaf, one, two, use_of};
ghost use Rattle.scope_model.specs.Scope.{of_case, scoped};
ghost use Rattle.scoped_tree.specs.Trees.{argument, bind_form, case_form, chain as scoped_chain, leaf_form, one_form, two_form};
ghost use Rattle.surf_tree.specs.Forms.{chain, class_tree, name_use, number_or_none, place};
ghost use Rattle.scope_part.specs.Around.{IsReady, around_of};
ghost use Rattle.scope_part.specs.Layers.{bounds};
ghost use Rattle.scope_part.specs.Names.{text_or_none};
ghost use Rattle.scope_part.specs.Results.{Gives};
ghost use Rattle.scope_part.specs.Shapes.{part_tree};
ghost use Rattle.scope_part.specs.Spelled.{bare_of, spelled};

use crate::binders::{Binders, Layer};
use crate::fault::ScopeFault;
use crate::first_use::classed;
use crate::resolver::Resolver;
use crate::shape::{
    Part, Shape, binder_class, body_class, domain_class, left_class, of_class, place_of_part,
    right_class, shape_of,
};
use cdle_model::{NoMemory, Sort};
use cdle_names::{NameId, NameTable, Span};
use scoped_tree::{
    Argument, BindForm, CaseForm, LeafForm, OneForm, Reference, Scoped, ScopedBranch, TwoForm,
};
use std::alloc::Global;
use surf_tree::{NameUse, Src, SrcBranch, SrcClass, SrcKind, SrcPattern, SrcType};

/// The arguments of a pattern.
#[tactic(auto, using(crate::proofs::Branches::argument_on, crate::proofs::Branches::arguments_end))]
fn arguments(alloc: Global, patterns: &[SrcPattern]) -> Result<Vec<Argument>, NoMemory>
    ensures { IfOk result (λ v. map argument v.items ≡ map bare_of patterns.now) }
{
    let mut args = Vec::new(alloc);
    let mut rest = patterns;
    'patterns: while let Some((first, others)) = rest.split_first() {
        args.push(Argument {
            mode: first.mode,
            span: first.span,
        })?;
        rest = others;
    }
    Ok(args)
}

impl Resolver<'_> {
    /// A term whose names are replaced by what they stand for.
    pub fn term(
        &self,
        names: &NameTable,
        binders: &Binders<'_>,
        term: &Src,
    ) -> Result<Scoped, ScopeFault>
        requires { IsReady self.now }
        ensures { Gives (λ t. t) result (scoped (around_of names.now self.now) [] (bounds names.now binders.now) OfTerm (spelled names.now term.now)) }
    {
        self.part(names, binders, Sort::OfTerm, Part::Term(term))
    }

    /// A type whose names are replaced by what they stand for.
    pub fn ty(
        &self,
        names: &NameTable,
        binders: &Binders<'_>,
        ty: &SrcType,
    ) -> Result<Scoped, ScopeFault>
        requires { IsReady self.now }
        ensures { Gives (λ t. t) result (scoped (around_of names.now self.now) [] (bounds names.now binders.now) OfType (spelled names.now ty.now)) }
    {
        self.part(names, binders, Sort::OfType, Part::Type(ty))
    }

    /// A kind whose names are replaced by what they stand for.
    pub fn kind(
        &self,
        names: &NameTable,
        binders: &Binders<'_>,
        kind: &SrcKind,
    ) -> Result<Scoped, ScopeFault>
        requires { IsReady self.now }
        ensures { Gives (λ t. t) result (scoped (around_of names.now self.now) [] (bounds names.now binders.now) OfType (spelled names.now kind.now)) }
    {
        self.part(names, binders, Sort::OfType, Part::Kind(kind))
    }

    /// A type or a kind whose names are replaced by what they stand for.
    pub fn class(
        &self,
        names: &NameTable,
        binders: &Binders<'_>,
        class: &SrcClass,
    ) -> Result<Scoped, ScopeFault>
        requires { IsReady self.now }
        ensures { Gives (λ t. t) result (scoped (around_of names.now self.now) [] (bounds names.now binders.now) OfType (spelled names.now (class_tree class.now))) }
    {
        self.part(names, binders, Sort::OfType, of_class(class))
    }

    /// A name where a term, or a type, is wanted.
    #[tactic(auto, using(crate::proofs::Scoping::name_fails, crate::proofs::Scoping::name_is))]
    fn name(
        &self,
        names: &NameTable,
        binders: &Binders<'_>,
        sort: Sort,
        span: Span,
        name: NameUse,
    ) -> Result<Scoped, ScopeFault>
        requires { IsReady self.now }
        ensures { Gives (λ t. t) result (scoped (around_of names.now self.now) [] (bounds names.now binders.now) sort (spelled names.now (use_of (place span) (name_use name)))) }
    {
        match self.reference(names, binders, sort, span, name) {
            Ok(reference) => match Scoped::name(self.alloc, span, reference) {
                Ok(tree) => Ok(tree),
                Err(NoMemory) => Err(ScopeFault::NoMemory),
            },
            Err(fault) => Err(fault),
        }
    }

    /// A form without parts.
    #[tactic(auto, using(crate::proofs::Scoping::leaf_is))]
    fn leaf(
        &self,
        names: &NameTable,
        binders: &Binders<'_>,
        sort: Sort,
        span: Span,
        form: LeafForm,
    ) -> Result<Scoped, ScopeFault>
        ensures { Gives (λ t. t) result (scoped (around_of names.now self.now) [] (bounds names.now binders.now) sort (spelled names.now (leaf (place span) (leaf_form form)))) }
    {
        match Scoped::leaf(self.alloc, span, form) {
            Ok(tree) => Ok(tree),
            Err(NoMemory) => Err(ScopeFault::NoMemory),
        }
    }

    /// A part whose names are replaced by what they stand for.
    #[cycle(part)]
    fn part(
        &self,
        names: &NameTable,
        binders: &Binders<'_>,
        sort: Sort,
        part: Part<'_>,
    ) -> Result<Scoped, ScopeFault>
        requires { IsReady self.now }
        ensures { Gives (λ t. t) result (scoped (around_of names.now self.now) [] (bounds names.now binders.now) sort (spelled names.now (part_tree part.entry))) }
    {
        let span = place_of_part(part);
        match shape_of(part) {
            Shape::Name(name) => self.name(names, binders, sort, span, name),
            Shape::Leaf(form) => self.leaf(names, binders, sort, span, form),
            Shape::One(form, inner) => self.one(names, binders, sort, span, form, inner),
            Shape::Two(form, left, right) => {
                self.two(names, binders, sort, span, form, left, right)
            }
            Shape::Bind(form, var, domain, body) => {
                self.bind(names, binders, sort, span, form, var, domain, body)
            }
            Shape::Cases(form, var, of, motive, branches) => {
                self.cases(names, binders, sort, span, form, var, of, motive, branches)
            }
        }
    }

    /// A form of one part.
    #[cycle(part)]
    #[tactic(auto, using(crate::proofs::Scoping::inner_fails, crate::proofs::Scoping::one_is))]
    fn one(
        &self,
        names: &NameTable,
        binders: &Binders<'_>,
        sort: Sort,
        span: Span,
        form: OneForm,
        inner: Part<'_>,
    ) -> Result<Scoped, ScopeFault>
        requires { IsReady self.now }
        ensures { Gives (λ t. t) result (scoped (around_of names.now self.now) [] (bounds names.now binders.now) sort (spelled names.now (one (place span) (one_form form) (part_tree inner.entry)))) }
    {
        let inner = match self.part(names, binders, Sort::OfTerm, inner) {
            Ok(inner) => inner,
            Err(fault) => return Err(fault),
        };
        match Scoped::one(self.alloc, span, form, inner) {
            Ok(tree) => Ok(tree),
            Err(NoMemory) => Err(ScopeFault::NoMemory),
        }
    }

    /// A form of two parts.
    #[cycle(part)]
    #[tactic(auto, using(crate::proofs::Scoping::left_fails, crate::proofs::Scoping::right_fails, crate::proofs::Scoping::two_are))]
    fn two(
        &self,
        names: &NameTable,
        binders: &Binders<'_>,
        sort: Sort,
        span: Span,
        form: TwoForm,
        left: Part<'_>,
        right: Part<'_>,
    ) -> Result<Scoped, ScopeFault>
        requires { IsReady self.now }
        ensures { Gives (λ t. t) result (scoped (around_of names.now self.now) [] (bounds names.now binders.now) sort (spelled names.now (two (place span) (two_form form) (part_tree left.entry) (part_tree right.entry)))) }
    {
        let first = match self.part(names, binders, left_class(form), left) {
            Ok(first) => first,
            Err(fault) => return Err(fault),
        };
        let second = match self.part(names, binders, right_class(form), right) {
            Ok(second) => second,
            Err(fault) => return Err(fault),
        };
        match Scoped::two(self.alloc, span, form, first, second) {
            Ok(tree) => Ok(tree),
            Err(NoMemory) => Err(ScopeFault::NoMemory),
        }
    }

    /// A form of two parts of which the second stands under the binder.
    #[cycle(part)]
    #[tactic(auto, using(crate::proofs::Scoping::domain_fails, crate::proofs::Scoping::body_fails, crate::proofs::Scoping::bind_is))]
    fn bind(
        &self,
        names: &NameTable,
        binders: &Binders<'_>,
        sort: Sort,
        span: Span,
        form: BindForm,
        var: Option<NameId>,
        domain: Part<'_>,
        body: Part<'_>,
    ) -> Result<Scoped, ScopeFault>
        requires { IsReady self.now }
        ensures { Gives (λ t. t) result (scoped (around_of names.now self.now) [] (bounds names.now binders.now) sort (spelled names.now (bind (place span) (bind_form form) (number_or_none var) (part_tree domain.entry) (part_tree body.entry)))) }
    {
        let domain = match self.part(names, binders, domain_class(form), domain) {
            Ok(domain) => domain,
            Err(fault) => return Err(fault),
        };
        let known = classed(names, form, var, body);
        let inner = Binders::Within(Layer::Variable(var, binder_class(known)), &*binders);
        let body = match self.part(names, &inner, body_class(form), body) {
            Ok(body) => body,
            Err(fault) => return Err(fault),
        };
        match Scoped::bind(self.alloc, span, known, domain, body) {
            Ok(tree) => Ok(tree),
            Err(NoMemory) => Err(ScopeFault::NoMemory),
        }
    }

    /// A case.
    #[cycle(part)]
    #[tactic(auto, using(crate::proofs::Scoping::of_fails, crate::proofs::Scoping::motive_fails, crate::proofs::Scoping::branches_fail, crate::proofs::Scoping::cases_are))]
    fn cases(
        &self,
        names: &NameTable,
        binders: &Binders<'_>,
        sort: Sort,
        span: Span,
        form: CaseForm,
        var: Option<NameId>,
        of: Part<'_>,
        motive: Part<'_>,
        branches: &[SrcBranch],
    ) -> Result<Scoped, ScopeFault>
        requires { IsReady self.now }
        ensures { Gives (λ t. t) result (scoped (around_of names.now self.now) [] (bounds names.now binders.now) sort (spelled names.now (cases (place span) (case_form form) (number_or_none var) (part_tree of.entry) (part_tree motive.entry) (chain branches.now)))) }
    {
        let of = match self.part(names, binders, Sort::OfTerm, of) {
            Ok(of) => of,
            Err(fault) => return Err(fault),
        };
        let motive = match self.part(names, binders, Sort::OfType, motive) {
            Ok(motive) => motive,
            Err(fault) => return Err(fault),
        };
        let branches = match self.branches(names, binders, form, var, branches) {
            Ok(branches) => branches,
            Err(fault) => return Err(fault),
        };
        match Scoped::cases(self.alloc, span, form, of, motive, branches) {
            Ok(tree) => Ok(tree),
            Err(NoMemory) => Err(ScopeFault::NoMemory),
        }
    }

    /// The branches of a case.
    #[cycle(part)]
    #[tactic(auto, using(crate::proofs::Branches::branch_fails, crate::proofs::Branches::branch_on, crate::proofs::Branches::branches_end))]
    fn branches(
        &self,
        names: &NameTable,
        binders: &Binders<'_>,
        form: CaseForm,
        var: Option<NameId>,
        branches: &[SrcBranch],
    ) -> Result<Vec<ScopedBranch>, ScopeFault>
        requires { IsReady self.now }
        ensures { Gives (λ v. scoped_chain v.items) result (scoped (around_of names.now self.now) (of_case (case_form form) (text_or_none names.now var)) (bounds names.now binders.now) OfTerm (spelled names.now (chain branches.now))) }
    {
        let mut done = Vec::new(self.alloc);
        let mut rest = branches;
        'branches: while let Some((first, others)) = rest.split_first() {
            let branch = match self.branch(names, binders, form, var, first) {
                Ok(branch) => branch,
                Err(fault) => return Err(fault),
            };
            match done.push(branch) {
                Ok(()) => (),
                Err(_) => return Err(ScopeFault::NoMemory),
            }
            rest = others;
        }
        Ok(done)
    }

    /// One branch of a case.
    #[cycle(part)]
    #[tactic(auto, using(crate::proofs::Branches::ctor_fails, crate::proofs::Branches::inside_fails, crate::proofs::Branches::branch_is, crate::proofs::Branches::bare_is))]
    fn branch(
        &self,
        names: &NameTable,
        binders: &Binders<'_>,
        form: CaseForm,
        var: Option<NameId>,
        branch: &SrcBranch,
    ) -> Result<ScopedBranch, ScopeFault>
        requires { IsReady self.now }
        ensures { Gives (λ b. scoped_chain (b ∷ [])) result (scoped (around_of names.now self.now) (of_case (case_form form) (text_or_none names.now var)) (bounds names.now binders.now) OfTerm (spelled names.now (chain (branch.now ∷ [])))) }
    {
        let ctor = match self.reference(names, binders, Sort::OfTerm, branch.span, branch.ctor) {
            Ok(ctor) => ctor,
            Err(fault) => return Err(fault),
        };
        let case = Binders::Within(Layer::Case(form, var), &*binders);
        let pattern = Layer::Pattern(branch.args.as_slice());
        let inner = Binders::Within(pattern, &case);
        let part = match self.part(names, &inner, Sort::OfTerm, Part::Term(&branch.part)) {
            Ok(part) => part,
            Err(fault) => return Err(fault),
        };
        match arguments(self.alloc, branch.args.as_slice()) {
            Ok(args) => Ok(ScopedBranch {
                ctor,
                span: branch.span,
                args,
                part,
            }),
            Err(NoMemory) => Err(ScopeFault::NoMemory),
        }
    }
}
