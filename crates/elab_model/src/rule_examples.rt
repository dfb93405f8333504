//! Worked definitions, each with what the surface rules answer. Each is a clause of a function with an empty body.
ghost use Rattle.cdle_model.specs.Forms.{allt, app, def_item, lam, on, pi, star, tapp, xlam};
ghost use Rattle.cdle_model.specs.Trees.{name, var};
ghost use Rattle.elab_model.specs.Examples.{applied_variable, argument_left_open, at_bytes, before_argument_left_open, before_doubled, before_left_out_argument, doubled, endless, erased_variable_used, found_for, function_without_annotation, identity, left_out_argument, no_booleans, other_type, parts_that_differ, projected_variable, sides_that_differ, type_function_as_type, variable_as_equation};
ghost use Rattle.elab_model.specs.Questions.{found, rejected, spent_at};
ghost use Rattle.elab_model.specs.declared.codes.Code.TheVariants.{AnnotationWanted, ArgumentLeftOpen, ErasedVariableUsed, Mismatch, NotTheTwoBooleans, PartsDiffer, SidesDiffer, WantedEquation, WantedFunction, WantedIntersection, WantedKind};
ghost use Rattle.std.specs.Prelude.{◌≡◌, [], codes};

/// Definitions that are given, one of them with a type argument left out; each refusal but that of branches, with its place; and comparisons that are
/// spent: one of a side that has no head form, and one with a unit fewer than it takes.
pub fn examples_are_answered()
    ensures of_identity { found_for [] 200000 identity ≡ found (def_item (codes "m.id") (allt star (pi (var 0) (var 1))) (xlam star (lam (var 0) (var 0)))) }
    ensures of_left_out_argument { found_for before_left_out_argument 200000 left_out_argument ≡ found (def_item (codes "m.two") (allt star (pi (var 0) (var 1))) (xlam star (lam (var 0) (app (tapp (name 0) (var 1)) (var 0))))) }
    ensures of_argument_left_open { found_for before_argument_left_open 200000 argument_left_open ≡ rejected (at_bytes 119 122) ArgumentLeftOpen }
    ensures of_applied_variable { found_for [] 200000 applied_variable ≡ rejected (at_bytes 52 53) WantedFunction }
    ensures of_projected_variable { found_for [] 200000 projected_variable ≡ rejected (at_bytes 52 53) WantedIntersection }
    ensures of_variable_as_equation { found_for [] 200000 variable_as_equation ≡ rejected (at_bytes 55 56) WantedEquation }
    ensures of_type_function_as_type { found_for [] 200000 type_function_as_type ≡ rejected (at_bytes 42 43) WantedKind }
    ensures of_other_type { found_for [] 200000 other_type ≡ rejected (at_bytes 73 74) Mismatch }
    ensures of_erased_variable_used { found_for [] 200000 erased_variable_used ≡ rejected (at_bytes 45 47) ErasedVariableUsed }
    ensures of_parts_that_differ { found_for [] 200000 parts_that_differ ≡ rejected (at_bytes 77 78) PartsDiffer }
    ensures of_no_booleans { found_for [] 200000 no_booleans ≡ rejected (at_bytes 39 41) NotTheTwoBooleans }
    ensures of_sides_that_differ { found_for [] 200000 sides_that_differ ≡ rejected (at_bytes 49 51) SidesDiffer }
    ensures of_function_without_annotation { found_for [] 200000 function_without_annotation ≡ rejected (at_bytes 53 55) AnnotationWanted }
    ensures of_endless { found_for [] 50 endless ≡ spent_at (at_bytes 59 61) }
    ensures of_doubled { found_for before_doubled 13 doubled ≡ found (def_item (codes "m.a") (allt star (pi (on (name 0) (on (name 0) (var 0))) (pi (pi (var 1) (var 2)) (pi (var 2) (var 3))))) (xlam star (lam (on (name 0) (on (name 0) (var 0))) (var 0)))) }
    ensures of_doubled_spent { found_for before_doubled 12 doubled ≡ spent_at (at_bytes 123 124) }
{}
