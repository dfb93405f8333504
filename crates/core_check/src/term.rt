//! The types of terms, by Core's rules read upwards.
ghost use Rattle.std.specs.Prelude.{◌≡◌, ◌+◌, ◌∷◌, ◌≤◌, [], IfOk, length, max};
ghost use Rattle.cdle_model.specs.Check.{ask_same, at_part, binder_then, equation_then, has_then, infer, limited as limited_tree, mismatch, not_booleans, sides_differ, star_then, unless_deep};
ghost use Rattle.cdle_model.specs.Classes.{Fits, guides, item_sorts, pure_terms, terms, types, within};
ghost use Rattle.cdle_model.specs.Depth.{depth};
ghost use Rattle.cdle_model.specs.Derivation.{a_term, a_type, false_pure, signature, true_pure};
ghost use Rattle.cdle_model.specs.Erasure.{HasErasure, erased};
ghost use Rattle.cdle_model.specs.Fitting.{ContextFits};
ghost use Rattle.cdle_model.specs.Forms.{app, delta, eapp, elam, eq as eq_tree, fst, lam, pair, phi, pi as pi_tree, rho, snd, tapp, xlam};
ghost use Rattle.cdle_model.specs.Trees.{put};
ghost use Rattle.cdle_model.specs.declared.grammar.Sort.TheVariants.{OfTerm};
ghost use Rattle.core_rules.specs.Context.{entries, sorts};
ghost use Rattle.core_rules.specs.Formers.{Binds, binder_of, other_form};
ghost use Rattle.core_rules.specs.Questions.{Finds, FindsParts, Meets, Passes};
ghost use Rattle.core_reduce.specs.Values.{classes, former_class, former_parts, former_tree};
ghost use Rattle.core_reduce.specs.declared.side.SideClass.TheVariants.{OfPure, OfType as OfTypes};

use crate::item::Checker;
use core_reduce::{Former, Side};
use core_rules::{Context, Fault, allt, eq, limited, pi, whole_type};
use core_tree::{Guide, Kind, Pure, Term, TermForm, Ty};

impl Checker<'_> {
    /// The type of the term that is the part of this number.
    #[cycle(infer)]
    pub(crate) fn term(
        &self,
        number: u32,
        context: &Context<'_>,
        term: &Term,
    ) -> Result<Guide, Fault>
        requires context { ContextFits (item_sorts self.now.rules.items.now) (entries context.now) }
        requires fits { Fits (within (sorts context.now) (item_sorts self.now.rules.items.now)) terms term.now }
        requires few { length (entries context.now) + depth term.now ≤ 4096 }
        ensures finds { Finds self.now.rules.items.now self.now.rules.budget (at_part number (infer (signature self.now.rules.items.now) a_term (entries context.now) term.now)) result }
        ensures erasure { IfOk result (λ _. HasErasure term.now) }
        ensures fits { IfOk result (λ ty. Fits (within (sorts context.now) (item_sorts self.now.rules.items.now)) guides ty) }
    {
        self.rules.items.known();
        match self.term_form(context, term) {
            Ok(ty) => Ok(ty),
            Err(fault) => Err(fault.inside(number)),
        }
    }

    #[cycle(infer)]
    fn term_form(&self, context: &Context<'_>, term: &Term) -> Result<Guide, Fault>
        requires context { ContextFits (item_sorts self.now.rules.items.now) (entries context.now) }
        requires fits { Fits (within (sorts context.now) (item_sorts self.now.rules.items.now)) terms term.now }
        requires few { length (entries context.now) + depth term.now ≤ 4096 }
        ensures { Meets self.now.rules.items.now self.now.rules.budget (infer (signature self.now.rules.items.now) a_term (entries context.now) term.now) result }
    {
        match term.form() {
            TermForm::Var(index) => self.rules.variable_type(context, *index),
            TermForm::Name(item) => self.rules.item_type(context, *item),
            TermForm::Lam(ty, part) => self.abstraction(context, ty, part),
            TermForm::Elam(ty, part) => self.erased_abstraction(context, ty, part),
            TermForm::Xlam(kind, part) => self.type_abstraction(context, kind, part),
            TermForm::App(head, arg) => self.application(context, head, arg),
            TermForm::Eapp(head, arg) => self.erased_application(context, head, arg),
            TermForm::Tapp(head, arg) => self.type_application(context, head, arg),
            TermForm::Pair(left, right, ty) => self.pair(context, left, right, ty),
            TermForm::Fst(part) => self.first(context, part),
            TermForm::Snd(part) => self.second(context, part),
            TermForm::Beta(side, _) => eq(self.rules.alloc, side, side),
            TermForm::Rho(proof, guide, ty, part) => {
                self.rewriting(context, proof, guide, ty, part)
            }
            TermForm::Phi(proof, part, kept) => self.cast(context, proof, part, kept),
            TermForm::Delta(ty, proof) => self.separation(context, ty, proof),
        }
    }

    /// The parts of the product, or of the intersection, that the type of this term is.
    #[cycle(infer)]
    fn product_of(
        &self,
        former: Former,
        context: &Context<'_>,
        term: &Term,
    ) -> Result<(Side, Side), Fault>
        requires former { Binds former }
        requires class { former_class former ≡ OfTypes }
        requires context { ContextFits (item_sorts self.now.rules.items.now) (entries context.now) }
        requires fits { Fits (within (sorts context.now) (item_sorts self.now.rules.items.now)) terms term.now }
        requires few { length (entries context.now) + depth term.now ≤ 4096 }
        ensures finds { FindsParts self.now.rules.items.now self.now.rules.budget
            (binder_then 1 (binder_of former) (other_form former) (infer (signature self.now.rules.items.now) a_term (entries context.now) term.now)) result }
        ensures erasure { IfOk result (λ _. HasErasure term.now) }
        ensures classes { IfOk result (λ p. classes (p.0 ∷ p.1 ∷ []) ≡ former_parts former) }
        ensures fits { IfOk result (λ p. Fits (within (sorts context.now) (item_sorts self.now.rules.items.now)) guides (former_tree former (p.0 ∷ p.1 ∷ []))) }
    {
        let found = self.term(1, context, term)?;
        self.rules.type_parts(1, former, &found)
    }

    /// The sides of the equation that the type of the part of this number is.
    #[cycle(infer)]
    fn equation_of(
        &self,
        number: u32,
        context: &Context<'_>,
        term: &Term,
    ) -> Result<(Side, Side), Fault>
        requires context { ContextFits (item_sorts self.now.rules.items.now) (entries context.now) }
        requires fits { Fits (within (sorts context.now) (item_sorts self.now.rules.items.now)) terms term.now }
        requires few { length (entries context.now) + depth term.now ≤ 4096 }
        ensures finds { FindsParts self.now.rules.items.now self.now.rules.budget
            (equation_then number (infer (signature self.now.rules.items.now) a_term (entries context.now) term.now)) result }
        ensures left { IfOk result (λ p. p.0.class ≡ OfPure) }
        ensures right { IfOk result (λ p. p.1.class ≡ OfPure) }
        ensures fits { IfOk result (λ p. Fits (within (sorts context.now) (item_sorts self.now.rules.items.now)) guides (eq_tree p.0.tree p.1.tree)) }
    {
        let found = self.term(number, context, term)?;
        self.rules.sides(number, &found)
    }

    /// A function.
    #[cycle(infer)]
    fn abstraction(&self, context: &Context<'_>, ty: &Ty, part: &Term) -> Result<Guide, Fault>
        requires context { ContextFits (item_sorts self.now.rules.items.now) (entries context.now) }
        requires fits { Fits (within (sorts context.now) (item_sorts self.now.rules.items.now)) terms (lam ty.now part.now) }
        requires few { length (entries context.now) + depth (lam ty.now part.now) ≤ 4096 }
        ensures { Meets self.now.rules.items.now self.now.rules.budget (infer (signature self.now.rules.items.now) a_term (entries context.now) (lam ty.now part.now)) result }
    {
        let domain = self.erased_type(1, context, ty)?;
        let found = self.term(2, &Context::Term(&domain, &*context), part)?;
        pi(self.rules.alloc, &domain, &found)
    }

    /// A function whose argument is erased, and so is not in the erasure of its body.
    #[cycle(infer)]
    fn erased_abstraction(
        &self,
        context: &Context<'_>,
        ty: &Ty,
        part: &Term,
    ) -> Result<Guide, Fault>
        requires context { ContextFits (item_sorts self.now.rules.items.now) (entries context.now) }
        requires fits { Fits (within (sorts context.now) (item_sorts self.now.rules.items.now)) terms (elam ty.now part.now) }
        requires few { length (entries context.now) + depth (elam ty.now part.now) ≤ 4096 }
        ensures { Meets self.now.rules.items.now self.now.rules.budget (infer (signature self.now.rules.items.now) a_term (entries context.now) (elam ty.now part.now)) result }
    {
        let domain = self.erased_type(1, context, ty)?;
        let found = self.term(2, &Context::Term(&domain, &*context), part)?;
        self.rules.erased_product(&domain, &found, part)
    }

    /// A function over types.
    #[cycle(infer)]
    fn type_abstraction(
        &self,
        context: &Context<'_>,
        kind: &Kind,
        part: &Term,
    ) -> Result<Guide, Fault>
        requires context { ContextFits (item_sorts self.now.rules.items.now) (entries context.now) }
        requires fits { Fits (within (sorts context.now) (item_sorts self.now.rules.items.now)) terms (xlam kind.now part.now) }
        requires few { length (entries context.now) + depth (xlam kind.now part.now) ≤ 4096 }
        ensures { Meets self.now.rules.items.now self.now.rules.budget (infer (signature self.now.rules.items.now) a_term (entries context.now) (xlam kind.now part.now)) result }
    {
        let domain = self.erased_kind(1, context, kind)?;
        let found = self.term(2, &Context::Type(&domain, &*context), part)?;
        allt(self.rules.alloc, &domain, &found)
    }

    /// A function applied.
    #[cycle(infer)]
    fn application(&self, context: &Context<'_>, head: &Term, arg: &Term) -> Result<Guide, Fault>
        requires context { ContextFits (item_sorts self.now.rules.items.now) (entries context.now) }
        requires fits { Fits (within (sorts context.now) (item_sorts self.now.rules.items.now)) terms (app head.now arg.now) }
        requires few { length (entries context.now) + depth (app head.now arg.now) ≤ 4096 }
        ensures { Meets self.now.rules.items.now self.now.rules.budget (infer (signature self.now.rules.items.now) a_term (entries context.now) (app head.now arg.now)) result }
    {
        let parts = self.product_of(Former::Pi, context, head)?;
        self.applied(&parts, context, arg)
    }

    /// A function applied to an argument that is erased.
    #[cycle(infer)]
    fn erased_application(
        &self,
        context: &Context<'_>,
        head: &Term,
        arg: &Term,
    ) -> Result<Guide, Fault>
        requires context { ContextFits (item_sorts self.now.rules.items.now) (entries context.now) }
        requires fits { Fits (within (sorts context.now) (item_sorts self.now.rules.items.now)) terms (eapp head.now arg.now) }
        requires few { length (entries context.now) + depth (eapp head.now arg.now) ≤ 4096 }
        ensures { Meets self.now.rules.items.now self.now.rules.budget (infer (signature self.now.rules.items.now) a_term (entries context.now) (eapp head.now arg.now)) result }
    {
        let parts = self.product_of(Former::All, context, head)?;
        self.applied(&parts, context, arg)
    }

    /// The type of a function of these parts at an argument, which may be erased.
    #[cycle(infer)]
    fn applied(
        &self,
        parts: &(Side, Side),
        context: &Context<'_>,
        arg: &Term,
    ) -> Result<Guide, Fault>
        requires domain { parts.now.0.class ≡ OfTypes }
        requires range { parts.now.1.class ≡ OfTypes }
        requires context { ContextFits (item_sorts self.now.rules.items.now) (entries context.now) }
        requires parts_fit { Fits (within (sorts context.now) (item_sorts self.now.rules.items.now)) guides (pi_tree parts.now.0.tree parts.now.1.tree) }
        requires fits { Fits (within (sorts context.now) (item_sorts self.now.rules.items.now)) terms arg.now }
        requires few { length (entries context.now) + depth arg.now ≤ 4096 }
        ensures { Meets self.now.rules.items.now self.now.rules.budget (has_then 2 (λ found. mismatch found parts.now.0.tree)
            (infer (signature self.now.rules.items.now) a_term (entries context.now) arg.now) parts.now.0.tree (limited_tree (put 0 (erased arg.now) parts.now.1.tree))) result }
    {
        let found = self.term(2, context, arg)?;
        self.rules.type_at_term(parts, &found, arg)
    }

    /// A function over types applied.
    #[cycle(infer)]
    fn type_application(&self, context: &Context<'_>, head: &Term, arg: &Ty) -> Result<Guide, Fault>
        requires context { ContextFits (item_sorts self.now.rules.items.now) (entries context.now) }
        requires fits { Fits (within (sorts context.now) (item_sorts self.now.rules.items.now)) terms (tapp head.now arg.now) }
        requires few { length (entries context.now) + depth (tapp head.now arg.now) ≤ 4096 }
        ensures { Meets self.now.rules.items.now self.now.rules.budget (infer (signature self.now.rules.items.now) a_term (entries context.now) (tapp head.now arg.now)) result }
    {
        let parts = self.product_of(Former::Allt, context, head)?;
        let found = self.ty(2, context, arg)?;
        self.rules.type_at_type(&parts, &found, arg)
    }

    /// A pair of one term under two types.
    #[cycle(infer)]
    fn pair(
        &self,
        context: &Context<'_>,
        left: &Term,
        right: &Term,
        ty: &Ty,
    ) -> Result<Guide, Fault>
        requires context { ContextFits (item_sorts self.now.rules.items.now) (entries context.now) }
        requires fits { Fits (within (sorts context.now) (item_sorts self.now.rules.items.now)) terms (pair left.now right.now ty.now) }
        requires few { length (entries context.now) + depth (pair left.now right.now ty.now) ≤ 4096 }
        ensures { Meets self.now.rules.items.now self.now.rules.budget (infer (signature self.now.rules.items.now) a_term (entries context.now) (pair left.now right.now ty.now)) result }
    {
        let left_type = self.term(1, context, left)?;
        let right_type = self.erased_type(3, &Context::Term(&left_type, &*context), ty)?;
        let found = self.term(2, context, right)?;
        self.rules
            .paired(&left_type, &right_type, &found, left, right)
    }

    /// The first view of an intersection.
    #[cycle(infer)]
    fn first(&self, context: &Context<'_>, part: &Term) -> Result<Guide, Fault>
        requires context { ContextFits (item_sorts self.now.rules.items.now) (entries context.now) }
        requires fits { Fits (within (sorts context.now) (item_sorts self.now.rules.items.now)) terms (fst part.now) }
        requires few { length (entries context.now) + depth (fst part.now) ≤ 4096 }
        ensures { Meets self.now.rules.items.now self.now.rules.budget (infer (signature self.now.rules.items.now) a_term (entries context.now) (fst part.now)) result }
    {
        let parts = self.product_of(Former::Iota, context, part)?;
        whole_type(self.rules.alloc, &parts.0)
    }

    /// The second view of an intersection.
    #[cycle(infer)]
    fn second(&self, context: &Context<'_>, part: &Term) -> Result<Guide, Fault>
        requires context { ContextFits (item_sorts self.now.rules.items.now) (entries context.now) }
        requires fits { Fits (within (sorts context.now) (item_sorts self.now.rules.items.now)) terms (snd part.now) }
        requires few { length (entries context.now) + depth (snd part.now) ≤ 4096 }
        ensures { Meets self.now.rules.items.now self.now.rules.budget (infer (signature self.now.rules.items.now) a_term (entries context.now) (snd part.now)) result }
    {
        let parts = self.product_of(Former::Iota, context, part)?;
        self.rules.second_type(&parts, part)
    }

    /// A term under a type that is rewritten by an equation.
    #[cycle(infer)]
    fn rewriting(
        &self,
        context: &Context<'_>,
        proof: &Term,
        guide: &Guide,
        ty: &Ty,
        part: &Term,
    ) -> Result<Guide, Fault>
        requires context { ContextFits (item_sorts self.now.rules.items.now) (entries context.now) }
        requires fits { Fits (within (sorts context.now) (item_sorts self.now.rules.items.now)) terms (rho proof.now guide.now ty.now part.now) }
        requires few { length (entries context.now) + depth (rho proof.now guide.now ty.now part.now) ≤ 4096 }
        ensures { Meets self.now.rules.items.now self.now.rules.budget (infer (signature self.now.rules.items.now) a_term (entries context.now) (rho proof.now guide.now ty.now part.now)) result }
    {
        let sides = self.equation_of(1, context, proof)?;
        self.rewritten(&sides, context, guide, ty, part)
    }

    /// The type of a `rho`, which is the guide with one side of the equation where that of the part is the guide with the other.
    #[cycle(infer)]
    fn rewritten(
        &self,
        sides: &(Side, Side),
        context: &Context<'_>,
        guide: &Guide,
        ty: &Ty,
        part: &Term,
    ) -> Result<Guide, Fault>
        requires left { sides.now.0.class ≡ OfPure }
        requires right { sides.now.1.class ≡ OfPure }
        requires context { ContextFits (item_sorts self.now.rules.items.now) (entries context.now) }
        requires sides_fit { Fits (within (sorts context.now) (item_sorts self.now.rules.items.now)) guides (eq_tree sides.now.0.tree sides.now.1.tree) }
        requires guide_fits { Fits (within (OfTerm ∷ sorts context.now) (item_sorts self.now.rules.items.now)) guides guide.now }
        requires ty_fits { Fits (within (sorts context.now) (item_sorts self.now.rules.items.now)) types ty.now }
        requires part_fits { Fits (within (sorts context.now) (item_sorts self.now.rules.items.now)) terms part.now }
        requires few { length (entries context.now) + max (depth ty.now) (depth part.now) ≤ 4096 }
        ensures { Meets self.now.rules.items.now self.now.rules.budget (star_then 3 (infer (signature self.now.rules.items.now) a_type (entries context.now) ty.now)
            (unless_deep (put 0 sides.now.0.tree guide.now) (ask_same [] (sides_differ (erased ty.now) (put 0 sides.now.0.tree guide.now)) (erased ty.now) (put 0 sides.now.0.tree guide.now)
            (at_part 4 (infer (signature self.now.rules.items.now) a_term (entries context.now) part.now) (λ found. unless_deep (put 0 sides.now.1.tree guide.now)
            (ask_same (4 ∷ []) (mismatch found (put 0 sides.now.1.tree guide.now)) found (put 0 sides.now.1.tree guide.now) (limited_tree (erased ty.now)))))))) result }
    {
        let ty = self.erased_type(3, context, ty)?;
        self.rules.is_before(&ty, guide, sides)?;
        self.part_is_after(sides, context, guide, part)?;
        limited(ty)
    }

    /// The type of a `rho`'s part is the guide with the equation's right side put in it.
    #[cycle(infer)]
    fn part_is_after(
        &self,
        sides: &(Side, Side),
        context: &Context<'_>,
        guide: &Guide,
        part: &Term,
    ) -> Result<(), Fault>
        requires right { sides.now.1.class ≡ OfPure }
        requires context { ContextFits (item_sorts self.now.rules.items.now) (entries context.now) }
        requires right_fits { Fits (within (sorts context.now) (item_sorts self.now.rules.items.now)) pure_terms sides.now.1.tree }
        requires guide_fits { Fits (within (OfTerm ∷ sorts context.now) (item_sorts self.now.rules.items.now)) guides guide.now }
        requires part_fits { Fits (within (sorts context.now) (item_sorts self.now.rules.items.now)) terms part.now }
        requires few { length (entries context.now) + depth part.now ≤ 4096 }
        ensures { Passes self.now.rules.items.now self.now.rules.budget (λ q. at_part 4 (infer (signature self.now.rules.items.now) a_term (entries context.now) part.now)
            (λ found. unless_deep (put 0 sides.now.1.tree guide.now)
            (ask_same (4 ∷ []) (mismatch found (put 0 sides.now.1.tree guide.now)) found (put 0 sides.now.1.tree guide.now) q))) result }
    {
        let found = self.term(4, context, part)?;
        self.rules.is_after(&found, guide, sides)
    }

    /// A term in place of one that is equal to it.
    #[cycle(infer)]
    fn cast(
        &self,
        context: &Context<'_>,
        proof: &Term,
        part: &Term,
        kept: &Pure,
    ) -> Result<Guide, Fault>
        requires context { ContextFits (item_sorts self.now.rules.items.now) (entries context.now) }
        requires fits { Fits (within (sorts context.now) (item_sorts self.now.rules.items.now)) terms (phi proof.now part.now kept.now) }
        requires few { length (entries context.now) + depth (phi proof.now part.now kept.now) ≤ 4096 }
        ensures { Meets self.now.rules.items.now self.now.rules.budget (infer (signature self.now.rules.items.now) a_term (entries context.now) (phi proof.now part.now kept.now)) result }
    {
        let sides = self.equation_of(1, context, proof)?;
        self.cast_to(&sides, context, part, kept)
    }

    /// The type of the part of a `phi`, whose erasure is one side of the equation where what is kept is the other.
    #[cycle(infer)]
    fn cast_to(
        &self,
        sides: &(Side, Side),
        context: &Context<'_>,
        part: &Term,
        kept: &Pure,
    ) -> Result<Guide, Fault>
        requires left { sides.now.0.class ≡ OfPure }
        requires right { sides.now.1.class ≡ OfPure }
        requires context { ContextFits (item_sorts self.now.rules.items.now) (entries context.now) }
        requires sides_fit { Fits (within (sorts context.now) (item_sorts self.now.rules.items.now)) guides (eq_tree sides.now.0.tree sides.now.1.tree) }
        requires part_fits { Fits (within (sorts context.now) (item_sorts self.now.rules.items.now)) terms part.now }
        requires kept_fits { Fits (within (sorts context.now) (item_sorts self.now.rules.items.now)) pure_terms kept.now }
        requires few { length (entries context.now) + depth part.now ≤ 4096 }
        ensures { Meets self.now.rules.items.now self.now.rules.budget (at_part 2 (infer (signature self.now.rules.items.now) a_term (entries context.now) part.now) (λ found.
            ask_same [] (sides_differ (eq_tree sides.now.0.tree sides.now.0.tree) (eq_tree (erased part.now) (erased part.now))) sides.now.0.tree (erased part.now)
            (ask_same [] (sides_differ (eq_tree sides.now.1.tree sides.now.1.tree) (eq_tree kept.now kept.now)) sides.now.1.tree kept.now (limited_tree found)))) result }
    {
        let found = self.term(2, context, part)?;
        self.rules.are_cast(sides, part, kept)?;
        limited(found)
    }

    /// A term of any type, by an equation of two booleans that differ.
    #[cycle(infer)]
    fn separation(&self, context: &Context<'_>, ty: &Ty, proof: &Term) -> Result<Guide, Fault>
        requires context { ContextFits (item_sorts self.now.rules.items.now) (entries context.now) }
        requires fits { Fits (within (sorts context.now) (item_sorts self.now.rules.items.now)) terms (delta ty.now proof.now) }
        requires few { length (entries context.now) + depth (delta ty.now proof.now) ≤ 4096 }
        ensures { Meets self.now.rules.items.now self.now.rules.budget (infer (signature self.now.rules.items.now) a_term (entries context.now) (delta ty.now proof.now)) result }
    {
        let ty = self.erased_type(1, context, ty)?;
        self.separates(context, proof)?;
        limited(ty)
    }

    /// The type of a `delta`'s proof is the equation of the two booleans.
    #[cycle(infer)]
    fn separates(&self, context: &Context<'_>, proof: &Term) -> Result<(), Fault>
        requires context { ContextFits (item_sorts self.now.rules.items.now) (entries context.now) }
        requires fits { Fits (within (sorts context.now) (item_sorts self.now.rules.items.now)) terms proof.now }
        requires few { length (entries context.now) + depth proof.now ≤ 4096 }
        ensures { Passes self.now.rules.items.now self.now.rules.budget (λ q. equation_then 2 (infer (signature self.now.rules.items.now) a_term (entries context.now) proof.now) (λ left right.
            ask_same [] (not_booleans left right) left true_pure (ask_same [] (not_booleans left right) right false_pure q))) result }
    {
        let sides = self.equation_of(2, context, proof)?;
        self.rules.are_booleans(&sides.0, &sides.1)
    }
}
