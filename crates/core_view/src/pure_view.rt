//! Pure terms, read on the nodes of written terms or on their own.
ghost use Rattle.std.specs.Prelude.{◌≡◌, ◌≤◌, [], IfOk, IfSome};
ghost use Rattle.cdle_model.specs.Depth.{depth};
ghost use Rattle.cdle_model.specs.Classes.{IsOf, UsedAs, pure_terms};
ghost use Rattle.cdle_model.specs.Erasure.{HasErasure, erased};
ghost use Rattle.cdle_model.specs.Forms.{ap, fn};
ghost use Rattle.cdle_model.specs.Trees.{IsBelow, put, shift, var};
ghost use Rattle.cdle_model.specs.declared.grammar.Sort.TheVariants.{OfTerm};
ghost use Rattle.core_tree.specs.Nodes.{PutGives};
ghost use Rattle.core_view.specs.Passed.{renumbered};
ghost use Rattle.core_view.specs.Readings.{IsRead, IsTop, node_tree, pure_view_tree, reading_tree};

use crate::both::both;
use crate::erasure::{Erased, view};
use crate::passed::Passed;
use crate::pure_put::{put_built, put_number, put_written};
use crate::whole::{again, whole_built, whole_written};
use cdle_model::NoMemory;
use core_tree::{Part, Pure, PureForm, PutStop, Term};
use std::alloc::{AllocError, Global};
use std::marker::Model;
use std::rc::Rc;

/// A node at which an erased tree is read: a written term, of which the erasure is meant, or a pure term itself.
#[derive(Drop)]
enum PureNode {
    Written(Term),
    Built(Pure),
}

/// A node with the places in which its numbering of variables differs from that of the tree that is read.
#[derive(Drop)]
struct Placed {
    node: PureNode,
    passed: Passed,
}

/// Where an erased tree is read. Most are read at a node that has their own numbering, so that alone the others stand behind one more pointer.
#[derive(Drop)]
enum Reading {
    Written(Term),
    Built(Pure),
    Variable(u32),
    Placed(Rc<Placed>),
}

/// A pure term, read at a node or a variable. Contracts see the tree.
#[derive(Drop)]
pub struct PureView {
    reading: Reading,
}

/// The head of a pure term, with its parts.
#[derive(Drop)]
pub enum PureViewForm {
    Var(u32),
    Name(u32),
    Function(PureView),
    Ap(PureView, PureView),
}

/// The head of a pure term alone.
#[derive(Clone, Copy)]
pub enum PureTop {
    Var,
    Name(u32),
    Function,
    Ap,
}

impl Model for PureView {
    ghost use Rattle.cdle_model.specs.Trees.{Tree};
    ghost use Rattle.cdle_model.specs.Code.{coded_tree};

    ghost Value = { Tree };

    ghost coded = { coded_tree };

    ghost use Rattle.core_view.specs.Readings.{IsRead, reading_tree};

    ghost view = { λ a. reading_tree a.reading };

    ghost invariant = { λ a. IsRead (reading_tree a.reading) };
}

impl PureNode {
    /// The same tree once more, sharing the node.
    fn share(&self) -> Result<PureNode, NoMemory>
        ensures { IfOk result (λ n. node_tree n ≡ node_tree self.now) }
    {
        match self {
            PureNode::Written(term) => Ok(PureNode::Written(term.clone()?)),
            PureNode::Built(term) => Ok(PureNode::Built(term.clone()?)),
        }
    }
}

impl Reading {
    /// The same tree once more, sharing the node.
    fn share(&self) -> Result<Reading, NoMemory>
        ensures { IfOk result (λ r. reading_tree r ≡ reading_tree self.now) }
    {
        match self {
            Reading::Written(term) => Ok(Reading::Written(term.clone()?)),
            Reading::Built(term) => Ok(Reading::Built(term.clone()?)),
            Reading::Variable(index) => Ok(Reading::Variable(*index)),
            Reading::Placed(placed) => Ok(Reading::Placed(placed.clone()?)),
        }
    }
}

impl PureView {
    /// The erasure of the term, of which the node is shared.
    #[tactic(auto, using(crate::proofs::Erasures::reading))]
    pub fn of_term(term: &Term) -> Result<PureView, NoMemory>
        requires { HasErasure term.now }
        ensures { IfOk result (λ t. t ≡ erased term.now) }
    {
        term.known();
        // Asked for its bound alone.
        let _depth = term.depth();
        Ok(PureView {
            reading: Reading::Written(term.clone()?),
        })
    }

    /// The pure term itself, of which the node is shared.
    pub fn of_pure(term: &Pure) -> Result<PureView, NoMemory>
        ensures { IfOk result (λ t. t ≡ term.now) }
    {
        Ok(PureView::built(term.clone()?))
    }

    /// The pure term itself.
    pub fn built(term: Pure) -> PureView
        ensures { result ≡ term }
    {
        term.known();
        // Asked for its bound alone.
        let _depth = term.depth();
        PureView {
            reading: Reading::Built(term),
        }
    }

    /// The variable of that number.
    pub fn variable(index: u32) -> PureView
        ensures { result ≡ var index }
    {
        PureView {
            reading: Reading::Variable(index),
        }
    }

    /// The tree that is read at the node, where these places were passed.
    fn placed(alloc: Global, node: PureNode, passed: Passed) -> Result<PureView, NoMemory>
        requires { IsRead (renumbered 0 passed (node_tree node)) }
        ensures { IfOk result (λ t. t ≡ renumbered 0 passed (node_tree node)) }
    {
        let placed = Rc::new(alloc, Placed { node, passed })?;
        Ok(PureView {
            reading: Reading::Placed(placed),
        })
    }

    /// Tells a proof the class of the tree, and how deep it is at most. It does nothing when it runs.
    pub fn known(&self)
        ensures class { IsOf pure_terms self.now }
        ensures bounded { depth self.now ≤ 65535 }
    {
        let _ = &self.reading;
    }

    /// The pure term itself, where it is read at its own node with its own numbering. It takes no memory.
    pub fn own(&self) -> Option<&Pure>
        ensures { IfSome result (λ t. t.now ≡ self.now) }
    {
        match &self.reading {
            Reading::Built(term) => Some(term),
            _ => None,
        }
    }

    /// The same tree once more, sharing its node.
    pub fn share(&self) -> Result<PureView, NoMemory>
        ensures { IfOk result (λ t. t ≡ self.now) }
    {
        Ok(PureView {
            reading: self.reading.share()?,
        })
    }

    /// The head alone. It takes no memory.
    #[tactic(auto, using(crate::proofs::Numbers::heads))]
    pub fn top(&self) -> PureTop
        ensures top { IsTop self.now result }
        ensures class { IsOf pure_terms self.now }
    {
        match &self.reading {
            Reading::Written(term) => top_written(term),
            Reading::Built(term) => top_built(term),
            Reading::Variable(_) => PureTop::Var,
            Reading::Placed(placed) => top_node(&placed.node),
        }
    }

    /// The head of the tree, with its parts.
    pub fn form(&self, alloc: Global) -> Result<PureViewForm, NoMemory>
        ensures { IfOk result (λ f. pure_view_tree f ≡ self.now) }
    {
        match &self.reading {
            Reading::Written(term) => written_form(alloc, term, &Passed::none()),
            Reading::Built(term) => own_form(term),
            Reading::Variable(index) => Ok(PureViewForm::Var(*index)),
            Reading::Placed(placed) => node_form(alloc, &placed.node, &placed.passed),
        }
    }

    /// The tree over one more variable, whose number is 0.
    pub fn raised(&self, alloc: Global) -> Result<PureView, NoMemory>
        ensures { IfOk result (λ t. t ≡ shift 0 1 self.now) }
    {
        self.known();
        match &self.reading {
            Reading::Written(term) => raised_written(alloc, term),
            Reading::Built(term) => raised_built(alloc, term),
            Reading::Variable(index) => raised_variable(*index),
            Reading::Placed(placed) => raised_node(alloc, placed.node.share()?, &placed.passed),
        }
    }

    /// The tree as one, of its own nodes.
    pub fn whole(&self, alloc: Global) -> Result<Pure, NoMemory>
        ensures { IfOk result (λ t. t ≡ self.now) }
    {
        self.known();
        match &self.reading {
            Reading::Written(term) => {
                // Asked for its bound alone.
                let _depth = term.depth();
                whole_written(alloc, term, &Passed::none(), 0)
            }
            Reading::Built(term) => again(term),
            Reading::Variable(index) => Pure::var(alloc, *index),
            Reading::Placed(placed) => whole_node(alloc, &placed.node, &placed.passed),
        }
    }

    /// Puts the part for the variable 0, and lowers the other free variables by one.
    pub fn put_pure(&self, alloc: Global, part: &PureView) -> Result<Pure, PutStop>
        requires used { UsedAs OfTerm 0 pure_terms self.now }
        requires below { IsBelow 4290000000 part.now }
        ensures { PutGives (put 0 part.now self.now) result }
    {
        if let Some(part) = part.own() {
            return put(alloc, &self.reading, part);
        }
        let part = part.whole(alloc)?;
        put(alloc, &self.reading, &part)
    }
}

/// The tree that is read at the written term, over one more variable.
fn raised_written(alloc: Global, term: &Term) -> Result<PureView, NoMemory>
    requires { IsRead (erased term.now) }
    ensures { IfOk result (λ t. t ≡ shift 0 1 (erased term.now)) }
{
    raised_node(alloc, PureNode::Written(term.clone()?), &Passed::none())
}

fn raised_built(alloc: Global, term: &Pure) -> Result<PureView, NoMemory>
    requires { IsRead term.now }
    ensures { IfOk result (λ t. t ≡ shift 0 1 term.now) }
{
    raised_node(alloc, PureNode::Built(term.clone()?), &Passed::none())
}

fn raised_variable(index: u32) -> Result<PureView, NoMemory>
    ensures { IfOk result (λ t. t ≡ shift 0 1 (var index)) }
{
    match index.checked_add(1) {
        Some(index) => Ok(PureView::variable(index)),
        None => Err(NoMemory),
    }
}

#[tactic(auto, using(crate::proofs::Numbers::raising))]
fn raised_node(alloc: Global, node: PureNode, passed: &Passed) -> Result<PureView, NoMemory>
    requires { IsRead (renumbered 0 passed.now (node_tree node)) }
    ensures { IfOk result (λ t. t ≡ shift 0 1 (renumbered 0 passed.now (node_tree node))) }
{
    let passed = passed.raised(alloc)?;
    PureView::placed(alloc, node, passed)
}

/// The tree that is read at the node, as one of its own nodes.
fn whole_node(alloc: Global, node: &PureNode, passed: &Passed) -> Result<Pure, NoMemory>
    requires { IsRead (renumbered 0 passed.now (node_tree node.now)) }
    ensures { IfOk result (λ t. t ≡ renumbered 0 passed.now (node_tree node.now)) }
{
    match node {
        PureNode::Written(term) => {
            // Asked for its bound alone.
            let _depth = term.depth();
            whole_written(alloc, term, passed, 0)
        }
        PureNode::Built(term) => {
            // Asked for its bound alone.
            let _depth = term.depth();
            refuse_large(term, passed)?;
            whole_built(alloc, term, passed, 0)
        }
    }
}

/// Refuses a shared tree that would be built anew for these places, where no memory holds what that builds.
fn refuse_large(term: &Pure, passed: &Passed) -> Result<(), NoMemory> {
    if term.is_too_large() && !passed.spares(0, term) {
        Err(NoMemory)
    } else {
        Ok(())
    }
}

/// The tree that is read, with the part for the variable 0.
fn put(alloc: Global, reading: &Reading, part: &Pure) -> Result<Pure, PutStop>
    requires used { UsedAs OfTerm 0 pure_terms (reading_tree reading.now) }
    requires below { IsBelow 4290000000 part.now }
    ensures { PutGives (put 0 part.now (reading_tree reading.now)) result }
{
    match reading {
        Reading::Written(term) => put_in_written(alloc, term, &Passed::none(), part),
        Reading::Built(term) => term.put_pure(alloc, 0, part),
        Reading::Variable(index) => put_for_variable(alloc, *index, part),
        Reading::Placed(placed) => put_in_node(alloc, &placed.node, &placed.passed, part),
    }
}

fn put_in_node(
    alloc: Global,
    node: &PureNode,
    passed: &Passed,
    part: &Pure,
) -> Result<Pure, PutStop>
    requires used { UsedAs OfTerm 0 pure_terms (renumbered 0 passed.now (node_tree node.now)) }
    requires below { IsBelow 4290000000 part.now }
    ensures { PutGives (put 0 part.now (renumbered 0 passed.now (node_tree node.now))) result }
{
    match node {
        PureNode::Written(term) => put_in_written(alloc, term, passed, part),
        PureNode::Built(term) => put_in_built(alloc, term, passed, part),
    }
}

#[tactic(auto, using(crate::proofs::Puts::entering))]
fn put_in_written(alloc: Global, term: &Term, passed: &Passed, part: &Pure) -> Result<Pure, PutStop>
    requires used { UsedAs OfTerm 0 pure_terms (renumbered 0 passed.now (erased term.now)) }
    requires below { IsBelow 4290000000 part.now }
    ensures { PutGives (put 0 part.now (renumbered 0 passed.now (erased term.now))) result }
{
    // Asked for its bound alone.
    let _depth = term.depth();
    put_written(alloc, term, passed, 0, 0, &Part::Pure(part))
}

#[tactic(auto, using(crate::proofs::Puts::entering))]
fn put_in_built(alloc: Global, term: &Pure, passed: &Passed, part: &Pure) -> Result<Pure, PutStop>
    requires used { UsedAs OfTerm 0 pure_terms (renumbered 0 passed.now term.now) }
    requires below { IsBelow 4290000000 part.now }
    ensures { PutGives (put 0 part.now (renumbered 0 passed.now term.now)) result }
{
    if term.depth() > 4096 {
        return Err(PutStop::TooDeep);
    }
    if term.is_too_large() {
        return Err(PutStop::NoMemory);
    }
    put_built(alloc, term, passed, 0, 0, &Part::Pure(part))
}

#[tactic(auto, using(crate::proofs::Puts::entering))]
fn put_for_variable(alloc: Global, index: u32, part: &Pure) -> Result<Pure, PutStop>
    requires used { UsedAs OfTerm 0 pure_terms (var index) }
    requires below { IsBelow 4290000000 part.now }
    ensures { PutGives (put 0 part.now (var index)) result }
{
    put_number(alloc, index, 0, &Part::Pure(part))
}

/// The head of the tree that is read at the node, without any places.
fn top_node(node: &PureNode) -> PureTop
    ensures { IsTop (node_tree node.now) result }
{
    match node {
        PureNode::Written(term) => top_written(term),
        PureNode::Built(term) => top_built(term),
    }
}

/// The head of the term's erasure.
#[tactic(auto, using(crate::proofs::Numbers::heads))]
fn top_written(term: &Term) -> PureTop
    ensures { IsTop (erased term.now) result }
{
    match view(term) {
        Erased::Var(_) => PureTop::Var,
        Erased::Name(item) => PureTop::Name(item),
        Erased::Lam(_) => PureTop::Function,
        Erased::App(_, _) => PureTop::Ap,
        Erased::Pass(part) => top_written(part),
        Erased::Under(part) => top_written(part),
        Erased::Pure(kept) => top_built(kept),
        Erased::Identity => PureTop::Function,
    }
}

fn top_built(term: &Pure) -> PureTop
    ensures { IsTop term.now result }
{
    match term.form() {
        PureForm::Var(_) => PureTop::Var,
        PureForm::Name(item) => PureTop::Name(*item),
        PureForm::Function(_) => PureTop::Function,
        PureForm::Ap(_, _) => PureTop::Ap,
    }
}

/// The head of the pure term itself, with its parts.
fn own_form(term: &Pure) -> Result<PureViewForm, NoMemory>
    ensures { IfOk result (λ f. pure_view_tree f ≡ term.now) }
{
    match term.form() {
        PureForm::Var(index) => Ok(PureViewForm::Var(*index)),
        PureForm::Name(item) => Ok(PureViewForm::Name(*item)),
        PureForm::Function(part) => Ok(PureViewForm::Function(PureView::of_pure(part)?)),
        PureForm::Ap(head, arg) => {
            let (head, arg) = both(PureView::of_pure(head), PureView::of_pure(arg))?;
            Ok(PureViewForm::Ap(head, arg))
        }
    }
}

/// The head of the tree that is read at the node with its parts, where these places were passed.
fn node_form(alloc: Global, node: &PureNode, passed: &Passed) -> Result<PureViewForm, NoMemory>
    requires { IsRead (renumbered 0 passed.now (node_tree node.now)) }
    ensures { IfOk result (λ f. pure_view_tree f ≡ renumbered 0 passed.now (node_tree node.now)) }
{
    match node {
        PureNode::Written(term) => written_form(alloc, term, passed),
        PureNode::Built(term) => built_form(alloc, term, passed),
    }
}

/// The head of the term's erasure with its parts, where these places were passed.
fn written_form(alloc: Global, term: &Term, passed: &Passed) -> Result<PureViewForm, NoMemory>
    requires { IsRead (renumbered 0 passed.now (erased term.now)) }
    ensures { IfOk result (λ f. pure_view_tree f ≡ renumbered 0 passed.now (erased term.now)) }
{
    match view(term) {
        Erased::Var(index) => variable_form(index, passed),
        Erased::Name(item) => Ok(PureViewForm::Name(item)),
        Erased::Lam(part) => function_form(alloc, PureNode::Written(part.clone()?), passed),
        Erased::App(head, arg) => {
            let head = head.clone()?;
            let arg = arg.clone()?;
            ap_form(
                alloc,
                PureNode::Written(head),
                PureNode::Written(arg),
                passed,
            )
        }
        Erased::Pass(part) => written_form(alloc, part, passed),
        Erased::Under(part) => {
            let outside = passed.erased(alloc, 0)?;
            let form = written_form(alloc, part, &outside);
            // A call drops it in one step of the proof, where the end of the block would in one for each of its forms.
            drop(outside);
            form
        }
        Erased::Pure(kept) => built_form(alloc, kept, passed),
        Erased::Identity => Ok(PureViewForm::Function(PureView::variable(0))),
    }
}

/// The head of the pure term with its parts, where these places were passed.
fn built_form(alloc: Global, term: &Pure, passed: &Passed) -> Result<PureViewForm, NoMemory>
    requires { IsRead (renumbered 0 passed.now term.now) }
    ensures { IfOk result (λ f. pure_view_tree f ≡ renumbered 0 passed.now term.now) }
{
    match term.form() {
        PureForm::Var(index) => variable_form(*index, passed),
        PureForm::Name(item) => Ok(PureViewForm::Name(*item)),
        PureForm::Function(part) => function_form(alloc, PureNode::Built(part.clone()?), passed),
        PureForm::Ap(head, arg) => {
            let head = head.clone()?;
            let arg = arg.clone()?;
            ap_form(alloc, PureNode::Built(head), PureNode::Built(arg), passed)
        }
    }
}

fn variable_form(index: u32, passed: &Passed) -> Result<PureViewForm, NoMemory>
    requires { IsOf pure_terms (renumbered 0 passed.now (var index)) }
    ensures { IfOk result (λ f. pure_view_tree f ≡ renumbered 0 passed.now (var index)) }
{
    let number = passed.number(0, index)?;
    Ok(PureViewForm::Var(number))
}

/// The function of which the part is read at the node.
fn function_form(alloc: Global, node: PureNode, passed: &Passed) -> Result<PureViewForm, NoMemory>
    requires { IsRead (fn (renumbered 1 passed.now (node_tree node))) }
    ensures { IfOk result (λ f. pure_view_tree f ≡ fn (renumbered 1 passed.now (node_tree node))) }
{
    let passed = passed.kept(1)?;
    Ok(PureViewForm::Function(read(alloc, node, passed)?))
}

/// The application of which the parts are read at the nodes.
fn ap_form(
    alloc: Global,
    head: PureNode,
    arg: PureNode,
    passed: &Passed,
) -> Result<PureViewForm, NoMemory>
    requires { IsRead (ap (renumbered 0 passed.now (node_tree head)) (renumbered 0 passed.now (node_tree arg))) }
    ensures { IfOk result (λ f. pure_view_tree f ≡ ap (renumbered 0 passed.now (node_tree head)) (renumbered 0 passed.now (node_tree arg))) }
{
    let (head, arg) = both(
        read_sharing(alloc, head, passed),
        read_sharing(alloc, arg, passed),
    )?;
    Ok(PureViewForm::Ap(head, arg))
}

/// The same tree as `read` gives, where the places are shared.
fn read_sharing(alloc: Global, node: PureNode, passed: &Passed) -> Result<PureView, NoMemory>
    requires { IsRead (renumbered 0 passed.now (node_tree node)) }
    ensures { IfOk result (λ t. t ≡ renumbered 0 passed.now (node_tree node)) }
{
    match passed.share() {
        Ok(passed) => read(alloc, node, passed),
        Err(NoMemory) => {
            drop(node);
            Err(NoMemory)
        }
    }
}

/// The tree that is read at the node, where these places were passed, or none were.
fn read(alloc: Global, node: PureNode, passed: Passed) -> Result<PureView, NoMemory>
    requires { IsRead (renumbered 0 passed (node_tree node)) }
    ensures { IfOk result (λ t. t ≡ renumbered 0 passed (node_tree node)) }
{
    if !passed.is_none() {
        return PureView::placed(alloc, node, passed);
    }
    Ok(unplaced(node))
}

/// The tree that is read at the node with its own numbering.
fn unplaced(node: PureNode) -> PureView
    requires { IsRead (node_tree node) }
    ensures { result ≡ node_tree node }
{
    match node {
        PureNode::Written(term) => PureView {
            reading: Reading::Written(term),
        },
        PureNode::Built(term) => PureView {
            reading: Reading::Built(term),
        },
    }
}
