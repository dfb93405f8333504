//! What the rows of classes make, and what they test.
ghost use Rattle.std.specs.Prelude.{◌≡◌, ◌∷◌, [], ℕ, Some, None, cond, IfOk, IfErr, ◌<◌, Ok};
ghost use Rattle.source_model.specs.Source.{bind, xtlam_of, tlam_of};
ghost use Rattle.source_model.specs.Heights.{is_kind};
ghost use Rattle.source_model.specs.Grammar.{Token, Test_, Make, IsType, IsShallow, HeadIsType, part, token, Class};
ghost use Rattle.source_model.specs.Grammar as m;
ghost use Rattle.source_model.specs.Made.{product, forall};
ghost use Rattle.source_model.specs.Rows.{one_less, counted, sign};
ghost use Rattle.source_model.specs.Parsing.{judged, one};
ghost use Rattle.surf_reader.specs.declared.binder.Binder.TheVariants as binders;
ghost use Rattle.surf_tree.specs.Forms.{class_tree, number_or_none, place};
ghost use Rattle.surf_reader.specs.View.{Closes, Counted, Ends, Fails, Tested, arrow_ends, arrow_need, class_on, ends_of, fits, need_of, on_token, part_word, Goes, class_part, type_part};

use crate::binder::Binder;
use crate::error::ParseFault;
use crate::reader::Reader;
use crate::spans::{
    over_class_and_type, over_classes, over_type_and_term, over_types, to_class, to_type,
};
use crate::token::Named;
use cdle_model::Count;
use cdle_names::{NameId, NoMemory, Span};
use source_model::Wanted;
use surf_tree::{Src, SrcClass, SrcKind, SrcType};

/// The most levels that a projection or an argument may make.
pub const MOST_LEVELS: u32 = 1025;

/// The arguments that may still come behind one, where they are counted.
pub fn one_less(count: Option<u32>) -> Option<u32>
    ensures { result ≡ one_less count }
{
    match count {
        None => None,
        Some(left) => Some(left.saturating_sub(1)),
    }
}

/// The wanted word behind a domain.
fn word_behind(domain: &SrcClass) -> Wanted
    ensures { result ≡ part_word m.as_domain (class_tree domain.now) }
{
    match domain {
        SrcClass::OfKind(kind) => {
            kind.levels();
            Wanted::Kind
        }
        SrcClass::OfType(ty) => {
            ty.levels();
            Wanted::Class
        }
    }
}

/// The wanted word of a binder's part.
pub fn word_of_part(binder: Binder, domain: &SrcClass) -> Wanted
    ensures { result ≡ part_word (need_of binder) (class_tree domain.now) }
{
    match binder {
        Binder::Product => word_behind(domain),
        Binder::Forall => Wanted::Ty,
        Binder::Lambda => Wanted::Ty,
    }
}

/// The wanted word behind an arrow.
pub fn word_behind_arrow(erased: bool, domain: &SrcClass) -> Wanted
    ensures { result ≡ part_word (arrow_need erased) (class_tree domain.now) }
{
    if erased {
        Wanted::Ty
    } else {
        word_behind(domain)
    }
}

impl<'a> Reader<'a> {
    /// That one more argument may come, where they are counted.
    pub fn counted(&self, count: Option<u32>, at: usize) -> Result<(), ParseFault>
        ensures { Counted self.now result count at }
    {
        match count {
            None => Ok(()),
            Some(left) => {
                if left == 0 {
                    Err(ParseFault::TooMany {
                        at: self.latest(at),
                        what: Count::Arguments,
                    })
                } else {
                    Ok(())
                }
            }
        }
    }

    /// A class that must be a type.
    pub fn as_type(&self, first: u32, class: SrcClass) -> Result<SrcType, ParseFault>
        ensures { (at : ℕ) → Tested self.now (λ t vs. part first t ∷ vs) result IsType (λ vs. part first (class_tree class) ∷ vs) at }
    {
        match class {
            SrcClass::OfType(ty) => {
                ty.levels();
                Ok(ty)
            }
            SrcClass::OfKind(kind) => {
                kind.levels();
                Err(ParseFault::Unexpected {
                    at: first,
                    wanted: Wanted::Ty,
                })
            }
        }
    }

    /// The head of an argument, which must be a type.
    pub fn head_type<'b>(&self, first: u32, head: &'b SrcClass) -> Result<&'b SrcType, ParseFault>
        ensures { (d : Token ℕ) (at : ℕ) → Tested self.now (λ t vs. token d ∷ part first t.now ∷ vs) result HeadIsType (λ vs. token d ∷ part first (class_tree head.now) ∷ vs) at }
    {
        match head {
            SrcClass::OfType(ty) => {
                ty.levels();
                Ok(ty)
            }
            SrcClass::OfKind(kind) => {
                kind.levels();
                Err(ParseFault::Unexpected {
                    at: first,
                    wanted: Wanted::Ty,
                })
            }
        }
    }

    /// That a type with an argument is not too high.
    pub fn shallow_type(&self, ty: &SrcType, at: usize) -> Result<(), ParseFault>
        ensures { (f : ℕ) → Tested self.now (λ u vs. part f ty.now ∷ vs) result IsShallow (λ vs. part f ty.now ∷ vs) at }
    {
        if ty.levels() > MOST_LEVELS {
            return Err(ParseFault::TooDeep {
                at: self.latest(at),
            });
        }
        Ok(())
    }

    /// A product of a domain and a part that begins at `first`.
    fn product(
        &self,
        span: Span,
        var: Option<NameId>,
        domain: &SrcClass,
        first: u32,
        part: &SrcClass,
    ) -> Result<SrcClass, ParseFault>
        ensures tree { IfOk result (λ p. class_tree p ≡ product (place span) (number_or_none var) (class_tree domain.now) (class_tree part.now)) }
        ensures fitting { IfOk result (λ p. fits first (class_tree domain.now) (class_tree part.now) ≡ None) }
        ensures refused { IfErr result (λ e. (s : _) → Fails e (judged s (fits first (class_tree domain.now) (class_tree part.now)))) }
    {
        match domain {
            SrcClass::OfType(domain) => {
                domain.levels();
                match part {
                    SrcClass::OfType(part) => {
                        part.levels();
                        Ok(SrcClass::OfType(SrcType::pi(self.alloc, span, var, domain, part)?))
                    }
                    SrcClass::OfKind(part) => {
                        part.levels();
                        Ok(SrcClass::OfKind(SrcKind::kpi(self.alloc, span, var, domain, part)?))
                    }
                }
            }
            SrcClass::OfKind(domain) => {
                domain.levels();
                match part {
                    SrcClass::OfType(part) => {
                        part.levels();
                        Err(ParseFault::Unexpected {
                            at: first,
                            wanted: Wanted::Kind,
                        })
                    }
                    SrcClass::OfKind(part) => {
                        part.levels();
                        Ok(SrcClass::OfKind(SrcKind::kpit(self.alloc, span, var, domain, part)?))
                    }
                }
            }
        }
    }

    fn forall(
        &self,
        span: Span,
        var: Option<NameId>,
        domain: &SrcClass,
        part: &SrcType,
    ) -> Result<SrcType, NoMemory>
        ensures { IfOk result (λ t. t ≡ forall (place span) (number_or_none var) (class_tree domain.now) part.now) }
    {
        match domain {
            SrcClass::OfType(domain) => {
                domain.levels();
                SrcType::all(self.alloc, span, var, domain, part)
            }
            SrcClass::OfKind(domain) => {
                domain.levels();
                SrcType::allt(self.alloc, span, var, domain, part)
            }
        }
    }

    fn type_lambda(
        &self,
        span: Span,
        var: NameId,
        domain: &SrcClass,
        part: &SrcType,
    ) -> Result<SrcType, NoMemory>
        ensures { IfOk result (λ t. t ≡ bind (place span) (cond (is_kind (class_tree domain.now)) xtlam_of tlam_of) (Some var.0) (class_tree domain.now) part.now) }
    {
        match domain {
            SrcClass::OfType(domain) => {
                domain.levels();
                SrcType::tlam(self.alloc, span, var, domain, part)
            }
            SrcClass::OfKind(domain) => {
                domain.levels();
                SrcType::xtlam(self.alloc, span, var, domain, part)
            }
        }
    }

    /// What `Π` makes.
    fn product_end(
        &self,
        sign: Named,
        name: Named,
        domain: &SrcClass,
        first: u32,
        part: &SrcClass,
    ) -> Result<SrcClass, ParseFault>
        ensures { (d e : Token ℕ) (f : ℕ) → Ends self.now (class_on sign) result (ends_of binders.Product)
            (λ vs. m.part first (class_tree part.now) ∷ token d ∷ m.part f (class_tree domain.now) ∷ token e ∷ on_token name (on_token sign vs)) }
    {
        self.product(to_class(sign, part), Some(name.name), domain, first, part)
    }

    /// What `∀` makes.
    fn forall_end(
        &self,
        sign: Named,
        name: Named,
        domain: &SrcClass,
        first: u32,
        part: SrcClass,
    ) -> Result<SrcClass, ParseFault>
        ensures { (d e : Token ℕ) (f : ℕ) → Ends self.now (class_on sign) result (ends_of binders.Forall)
            (λ vs. m.part first (class_tree part) ∷ token d ∷ m.part f (class_tree domain.now) ∷ token e ∷ on_token name (on_token sign vs)) }
    {
        let part = self.as_type(first, part)?;
        let ty = self.forall(to_type(sign, &part), Some(name.name), domain, &part)?;
        Ok(SrcClass::OfType(ty))
    }

    /// What the `λ` of types makes.
    fn lambda_end(
        &self,
        sign: Named,
        name: Named,
        domain: &SrcClass,
        first: u32,
        part: SrcClass,
    ) -> Result<SrcClass, ParseFault>
        ensures { (d e : Token ℕ) (f : ℕ) → Ends self.now (class_on sign) result (ends_of binders.Lambda)
            (λ vs. m.part first (class_tree part) ∷ token d ∷ m.part f (class_tree domain.now) ∷ token e ∷ on_token name (on_token sign vs)) }
    {
        let part = self.as_type(first, part)?;
        let ty = self.type_lambda(to_type(sign, &part), name.name, domain, &part)?;
        Ok(SrcClass::OfType(ty))
    }

    /// What a binder makes.
    pub fn bound(
        &self,
        binder: Binder,
        sign: Named,
        name: Named,
        domain: &SrcClass,
        first: u32,
        part: SrcClass,
    ) -> Result<SrcClass, ParseFault>
        ensures { (d e : Token ℕ) (f : ℕ) → Ends self.now (class_on sign) result (ends_of binder)
            (λ vs. m.part first (class_tree part) ∷ token d ∷ m.part f (class_tree domain.now) ∷ token e ∷ on_token name (on_token sign vs)) }
    {
        match binder {
            Binder::Product => self.product_end(sign, name, domain, first, &part),
            Binder::Forall => self.forall_end(sign, name, domain, first, part),
            Binder::Lambda => self.lambda_end(sign, name, domain, first, part),
        }
    }

    /// What `➔` makes.
    fn arrow_end(
        &self,
        begin: u32,
        domain: &SrcClass,
        first: u32,
        part: &SrcClass,
    ) -> Result<SrcClass, ParseFault>
        ensures { (d : Token ℕ) → Ends self.now (λ t vs. m.part begin (class_tree t) ∷ vs) result (Test_ m.Fits ∷ Make m.Arrow ∷ [])
            (λ vs. m.part first (class_tree part.now) ∷ token d ∷ m.part begin (class_tree domain.now) ∷ vs) }
    {
        self.product(over_classes(domain, part), None, domain, first, part)
    }

    /// What `➾` makes.
    fn erased_arrow_end(
        &self,
        begin: u32,
        domain: &SrcClass,
        first: u32,
        part: SrcClass,
    ) -> Result<SrcClass, ParseFault>
        ensures { (d : Token ℕ) → Ends self.now (λ t vs. m.part begin (class_tree t) ∷ vs) result (Test_ IsType ∷ Make m.ErasedArrow ∷ [])
            (λ vs. m.part first (class_tree part) ∷ token d ∷ m.part begin (class_tree domain.now) ∷ vs) }
    {
        let part = self.as_type(first, part)?;
        let span = over_class_and_type(domain, &part);
        let ty = self.forall(span, None, domain, &part)?;
        Ok(SrcClass::OfType(ty))
    }

    /// What an arrow makes.
    pub fn arrowed(
        &self,
        erased: bool,
        begin: u32,
        domain: &SrcClass,
        first: u32,
        part: SrcClass,
    ) -> Result<SrcClass, ParseFault>
        ensures { (d : Token ℕ) → Ends self.now (λ t vs. m.part begin (class_tree t) ∷ vs) result (arrow_ends erased)
            (λ vs. m.part first (class_tree part) ∷ token d ∷ m.part begin (class_tree domain.now) ∷ vs) }
    {
        if erased {
            self.erased_arrow_end(begin, domain, first, part)
        } else {
            self.arrow_end(begin, domain, first, &part)
        }
    }

    /// The kind `★`.
    pub fn star(&self, token: Named, at: usize) -> Result<((u32, SrcClass), usize), ParseFault>
        ensures { Goes self.now class_part result (Make m.Star ∷ []) (on_token token) at }
    {
        let kind = SrcKind::star(self.alloc, token.span)?;
        Ok(((token.span.from, SrcClass::OfKind(kind)), at))
    }

    /// What a type makes that is applied to a term.
    pub fn at_end(&self, head: &SrcType, arg: &Src, at: usize) -> Result<SrcType, ParseFault>
        ensures { (f g : ℕ) → Closes self.now (type_part f) result (Make m.At ∷ Test_ IsShallow ∷ []) (λ vs. m.part g arg.now ∷ m.part f head.now ∷ vs) at }
    {
        let ty = SrcType::at(self.alloc, over_type_and_term(head, arg), head, arg)?;
        self.shallow_type(&ty, at)?;
        Ok(ty)
    }

    /// What a type makes that is applied to a type, which begins at `first`.
    pub fn on_end(
        &self,
        head: &SrcType,
        first: u32,
        class: SrcClass,
        at: usize,
    ) -> Result<SrcType, ParseFault>
        ensures { (d : Token ℕ) (f : ℕ) → Closes self.now (type_part f) result (Test_ IsType ∷ Make m.On ∷ Test_ IsShallow ∷ []) (λ vs. m.part first (class_tree class) ∷ m.token d ∷ m.part f head.now ∷ vs) at }
    {
        let arg = self.as_type(first, class)?;
        let ty = SrcType::on(self.alloc, over_types(head, &arg), head, &arg)?;
        self.shallow_type(&ty, at)?;
        Ok(ty)
    }

    /// What `ι` makes.
    pub fn iota_end(
        &self,
        letter: Named,
        name: Named,
        domain: &SrcType,
        first: u32,
        class: SrcClass,
    ) -> Result<SrcType, ParseFault>
        ensures { (d e : Token ℕ) (f : ℕ) → Ends self.now (type_part letter.span.from) result (Test_ IsType ∷ Make m.Iota ∷ [])
            (λ vs. m.part first (class_tree class) ∷ token d ∷ m.part f domain.now ∷ token e ∷ on_token name (on_token letter vs)) }
    {
        let part = self.as_type(first, class)?;
        Ok(SrcType::iota(self.alloc, to_type(letter, &part), name.name, domain, &part)?)
    }
}
