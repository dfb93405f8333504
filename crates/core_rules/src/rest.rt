//! What is left of a rule once the types and kinds of its parts have been found.
ghost use Rattle.std.specs.Prelude.{◌≡◌, ◌∷◌, ◌≤◌, [], cond};
ghost use Rattle.cdle_model.specs.Check.{ask_same, erased_use, limited as limited_tree, mismatch, parts_differ, refuse, sides_differ, unless_deep, wrong_kind};
ghost use Rattle.cdle_model.specs.Classes.{UsedAs, guide_kinds, guides, item_sorts, pure_terms};
ghost use Rattle.cdle_model.specs.Depth.{depth};
ghost use Rattle.cdle_model.specs.Erasure.{HasErasure, erased};
ghost use Rattle.cdle_model.specs.Forms.{all as all_tree, eq, iota as iota_tree, star as star_tree};
ghost use Rattle.cdle_model.specs.Trees.{IsBelow, lacks as is_missing, put};
ghost use Rattle.cdle_model.specs.declared.grammar.Sort.TheVariants.{OfTerm, OfType as OfTypes};
ghost use Rattle.std.specs.Prelude.{Some};
ghost use Rattle.core_compare.specs.Answers.{ArePlaced};
ghost use Rattle.core_reduce.specs.declared.side.SideClass.TheVariants.{OfKind, OfPure, OfType};
ghost use Rattle.core_rules.specs.Questions.{Meets, Passes};

use crate::ask::Rules;
use crate::fault::{Fault, Place};
use crate::limit::{
    all, iota, put_side, put_term, put_term_in_kind, put_term_in_type, put_type_in_kind,
    put_type_in_type,
};
use core_reduce::Side;
use core_tree::{Guide, GuideKind, Pure, Term, Ty, Why};
use core_view::erasure_lacks;

impl Rules<'_> {
    /// The kind that the part of this number has is `*`.
    pub fn kind_is_star(&self, number: u32, found: &GuideKind) -> Result<(), Fault>
        requires { ArePlaced 4200000000 (item_sorts self.now.items.now) guide_kinds found.now star_tree }
        ensures { Passes self.now.items.now self.now.budget (ask_same (number ∷ []) (wrong_kind found.now (Some star_tree)) found.now star_tree) result }
    {
        let star = GuideKind::star(self.alloc)?;
        let wanted = Side::of_guide_kind(self.alloc, &star)?;
        self.kind_is_side(number, found, &wanted)
    }

    /// The type of a function at a term that has the wanted type.
    pub fn type_at_term(
        &self,
        parts: &(Side, Side),
        found: &Guide,
        arg: &Term,
    ) -> Result<Guide, Fault>
        requires domain { parts.now.0.class ≡ OfType }
        requires range { parts.now.1.class ≡ OfType }
        requires placed { ArePlaced 4200000000 (item_sorts self.now.items.now) guides found.now parts.now.0.tree }
        requires used { UsedAs OfTerm 0 guides parts.now.1.tree }
        requires erasure { HasErasure arg.now }
        requires below { IsBelow 4290000000 (erased arg.now) }
        ensures { Meets self.now.items.now self.now.budget
            (ask_same (2 ∷ []) (mismatch found.now parts.now.0.tree) found.now parts.now.0.tree (limited_tree (put 0 (erased arg.now) parts.now.1.tree))) result }
    {
        self.type_is_side(2, found, &parts.0)?;
        let arg = arg.erase(self.alloc)?;
        put_term_in_type(self.alloc, &parts.1, &arg)
    }

    /// The type of a function at a type that has the wanted kind.
    pub fn type_at_type(
        &self,
        parts: &(Side, Side),
        found: &GuideKind,
        arg: &Ty,
    ) -> Result<Guide, Fault>
        requires domain { parts.now.0.class ≡ OfKind }
        requires range { parts.now.1.class ≡ OfType }
        requires placed { ArePlaced 4200000000 (item_sorts self.now.items.now) guide_kinds found.now parts.now.0.tree }
        requires used { UsedAs OfTypes 0 guides parts.now.1.tree }
        requires erasure { HasErasure arg.now }
        requires below { IsBelow 4290000000 (erased arg.now) }
        ensures { Meets self.now.items.now self.now.budget
            (ask_same (2 ∷ []) (wrong_kind found.now (Some parts.now.0.tree)) found.now parts.now.0.tree (limited_tree (put 0 (erased arg.now) parts.now.1.tree))) result }
    {
        self.kind_is_side(2, found, &parts.0)?;
        let arg = arg.erase(self.alloc)?;
        put_type_in_type(self.alloc, &parts.1, &arg)
    }

    /// The kind of a family at a term that has the wanted type.
    pub fn kind_at_term(
        &self,
        parts: &(Side, Side),
        found: &Guide,
        arg: &Term,
    ) -> Result<GuideKind, Fault>
        requires domain { parts.now.0.class ≡ OfType }
        requires range { parts.now.1.class ≡ OfKind }
        requires placed { ArePlaced 4200000000 (item_sorts self.now.items.now) guides found.now parts.now.0.tree }
        requires used { UsedAs OfTerm 0 guide_kinds parts.now.1.tree }
        requires erasure { HasErasure arg.now }
        requires below { IsBelow 4290000000 (erased arg.now) }
        ensures { Meets self.now.items.now self.now.budget
            (ask_same (2 ∷ []) (mismatch found.now parts.now.0.tree) found.now parts.now.0.tree (limited_tree (put 0 (erased arg.now) parts.now.1.tree))) result }
    {
        self.type_is_side(2, found, &parts.0)?;
        let arg = arg.erase(self.alloc)?;
        put_term_in_kind(self.alloc, &parts.1, &arg)
    }

    /// The kind of a family at a type that has the wanted kind.
    pub fn kind_at_type(
        &self,
        parts: &(Side, Side),
        found: &GuideKind,
        arg: &Ty,
    ) -> Result<GuideKind, Fault>
        requires domain { parts.now.0.class ≡ OfKind }
        requires range { parts.now.1.class ≡ OfKind }
        requires placed { ArePlaced 4200000000 (item_sorts self.now.items.now) guide_kinds found.now parts.now.0.tree }
        requires used { UsedAs OfTypes 0 guide_kinds parts.now.1.tree }
        requires erasure { HasErasure arg.now }
        requires below { IsBelow 4290000000 (erased arg.now) }
        ensures { Meets self.now.items.now self.now.budget
            (ask_same (2 ∷ []) (wrong_kind found.now (Some parts.now.0.tree)) found.now parts.now.0.tree (limited_tree (put 0 (erased arg.now) parts.now.1.tree))) result }
    {
        self.kind_is_side(2, found, &parts.0)?;
        let arg = arg.erase(self.alloc)?;
        put_type_in_kind(self.alloc, &parts.1, &arg)
    }

    /// The type of the second view of an intersection.
    pub fn second_type(&self, parts: &(Side, Side), part: &Term) -> Result<Guide, Fault>
        requires range { parts.now.1.class ≡ OfType }
        requires used { UsedAs OfTerm 0 guides parts.now.1.tree }
        requires erasure { HasErasure part.now }
        requires below { IsBelow 4290000000 (erased part.now) }
        ensures { Meets self.now.items.now self.now.budget (limited_tree (put 0 (erased part.now) parts.now.1.tree)) result }
    {
        let part = part.erase(self.alloc)?;
        put_term_in_type(self.alloc, &parts.1, &part)
    }

    /// The type of a function whose argument is erased, and so is not in the erasure of its body.
    pub fn erased_product(&self, domain: &Guide, found: &Guide, part: &Term) -> Result<Guide, Fault>
        requires { depth part.now ≤ 4096 }
        ensures { Meets self.now.items.now self.now.budget
            (cond (is_missing 0 (erased part.now)) (limited_tree (all_tree domain.now found.now)) (refuse [] erased_use)) result }
    {
        if !erasure_lacks(part, 0) {
            return Err(Fault::refusal(self.alloc, Place::Form, Why::ErasedUse));
        }
        all(self.alloc, domain, found)
    }

    /// The intersection of which a pair is, where its second part has the second type with the first part put in it.
    pub fn paired(
        &self,
        left_type: &Guide,
        right_type: &Guide,
        found: &Guide,
        left: &Term,
        right: &Term,
    ) -> Result<Guide, Fault>
        requires left { HasErasure left.now }
        requires right { HasErasure right.now }
        requires used { UsedAs OfTerm 0 guides right_type.now }
        requires below { IsBelow 4290000000 (erased left.now) }
        requires placed { ArePlaced 4200000000 (item_sorts self.now.items.now) guides found.now (put 0 (erased left.now) right_type.now) }
        requires erasures { ArePlaced 4200000000 (item_sorts self.now.items.now) pure_terms (erased left.now) (erased right.now) }
        ensures { Meets self.now.items.now self.now.budget (unless_deep (put 0 (erased left.now) right_type.now)
            (ask_same (2 ∷ []) (mismatch found.now (put 0 (erased left.now) right_type.now)) found.now (put 0 (erased left.now) right_type.now)
            (ask_same [] (parts_differ (erased left.now) (erased right.now)) (erased left.now) (erased right.now) (limited_tree (iota_tree left_type.now right_type.now))))) result }
    {
        let left = left.erase(self.alloc)?;
        let wanted = put_term(self.alloc, right_type, &left)?;
        self.type_is_guide(2, found, &wanted)?;
        self.intersection(left_type, right_type, &left, right)
    }

    /// The intersection of the two types, where the erasures of a pair's parts are the same.
    fn intersection(
        &self,
        left_type: &Guide,
        right_type: &Guide,
        left: &Pure,
        right: &Term,
    ) -> Result<Guide, Fault>
        requires right { HasErasure right.now }
        requires erasures { ArePlaced 4200000000 (item_sorts self.now.items.now) pure_terms left.now (erased right.now) }
        ensures { Meets self.now.items.now self.now.budget
            (ask_same [] (parts_differ left.now (erased right.now)) left.now (erased right.now) (limited_tree (iota_tree left_type.now right_type.now))) result }
    {
        self.same_in_pair(left, right)?;
        iota(self.alloc, left_type, right_type)
    }

    /// The type of a `rho` is its guide with the equation's left side put in it.
    pub fn is_before(&self, ty: &Guide, guide: &Guide, sides: &(Side, Side)) -> Result<(), Fault>
        requires class { sides.now.0.class ≡ OfPure }
        requires used { UsedAs OfTerm 0 guides guide.now }
        requires below { IsBelow 4290000000 sides.now.0.tree }
        requires placed { ArePlaced 4200000000 (item_sorts self.now.items.now) guides ty.now (put 0 sides.now.0.tree guide.now) }
        ensures { Passes self.now.items.now self.now.budget (λ q. unless_deep (put 0 sides.now.0.tree guide.now)
            (ask_same [] (sides_differ ty.now (put 0 sides.now.0.tree guide.now)) ty.now (put 0 sides.now.0.tree guide.now) q)) result }
    {
        let before = put_side(self.alloc, guide, &sides.0)?;
        self.same_in_rho(ty, &before)
    }

    /// The type that was found in a `rho` is its guide with the equation's right side put in it.
    pub fn is_after(&self, found: &Guide, guide: &Guide, sides: &(Side, Side)) -> Result<(), Fault>
        requires class { sides.now.1.class ≡ OfPure }
        requires used { UsedAs OfTerm 0 guides guide.now }
        requires below { IsBelow 4290000000 sides.now.1.tree }
        requires placed { ArePlaced 4200000000 (item_sorts self.now.items.now) guides found.now (put 0 sides.now.1.tree guide.now) }
        ensures { Passes self.now.items.now self.now.budget (λ q. unless_deep (put 0 sides.now.1.tree guide.now)
            (ask_same (4 ∷ []) (mismatch found.now (put 0 sides.now.1.tree guide.now)) found.now (put 0 sides.now.1.tree guide.now) q)) result }
    {
        let after = put_side(self.alloc, guide, &sides.1)?;
        self.type_is_guide(4, found, &after)
    }

    /// The sides of the equation of a `phi` are the erasure of its part and what is kept in the place of that.
    pub fn are_cast(&self, sides: &(Side, Side), part: &Term, kept: &Pure) -> Result<(), Fault>
        requires left { sides.now.0.class ≡ OfPure }
        requires right { sides.now.1.class ≡ OfPure }
        requires erasure { HasErasure part.now }
        requires placed { ArePlaced 4200000000 (item_sorts self.now.items.now) pure_terms sides.now.0.tree (erased part.now) }
        requires kept { ArePlaced 4200000000 (item_sorts self.now.items.now) pure_terms sides.now.1.tree kept.now }
        ensures { Passes self.now.items.now self.now.budget
            (λ q. ask_same [] (sides_differ (eq sides.now.0.tree sides.now.0.tree) (eq (erased part.now) (erased part.now))) sides.now.0.tree (erased part.now)
            (ask_same [] (sides_differ (eq sides.now.1.tree sides.now.1.tree) (eq kept.now kept.now)) sides.now.1.tree kept.now q)) result }
    {
        let part = Side::of_term(self.alloc, part)?;
        self.same_in_phi(&sides.0, &part)?;
        let kept = Side::of_pure(self.alloc, kept)?;
        self.same_in_phi(&sides.1, &kept)
    }
}
