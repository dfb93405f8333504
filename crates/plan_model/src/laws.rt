//! The laws of orders and cycles. Each is the contract of a function with an empty body. They are stated for names that are numbers or texts; the proofs
//! hold for names of any type.
ghost use Rattle.std.specs.Prelude.{◌≡◌, ◌⊎◌, ◌↔◌, ℕ, List, map};
ghost use Rattle.source_model.specs.Source.{Module};
ghost use Rattle.plan_model.specs.Reading.{IsReading};
ghost use Rattle.plan_model.specs.Orders.{IsFirstOrder, IsOrder};
ghost use Rattle.plan_model.specs.Cycles.{IsCycle};
ghost use Rattle.plan_model.specs.Renamed.{AreRenamed};

/// Modules in reading order have a first order, or a cycle; never an order and a cycle; and just one of it.
pub fn modules_have_an_order_or_a_cycle()
    ensures there { (ms : List (Module (List ℕ))) → IsReading ms → ((o : List ℕ) × IsFirstOrder ms o) ⊎ ((names : List (List ℕ)) × IsCycle ms names) }
    ensures never_both { (ms : List (Module (List ℕ))) (o : List ℕ) (names : List (List ℕ)) → IsOrder ms o → IsCycle ms names → ⊥ }
    ensures one_order { (ms : List (Module (List ℕ))) (o p : List ℕ) → IsFirstOrder ms o → IsFirstOrder ms p → o ≡ p }
    ensures one_cycle { (ms : List (Module (List ℕ))) (names others : List (List ℕ)) → IsCycle ms names → IsCycle ms others → names ≡ others }
{}

/// Modules whose names are replaced, another name by another, have the same orders by their numbers, the same first order, and the cycle with its names replaced.
pub fn orders_are_kept_by_names()
    ensures orders { (f : ℕ → List ℕ) (ms : List (Module ℕ)) (ns : List (Module (List ℕ))) → AreRenamed f ms ns → (o : List ℕ) → IsOrder ms o ↔ IsOrder ns o }
    ensures first { (f : ℕ → List ℕ) (ms : List (Module ℕ)) (ns : List (Module (List ℕ))) → AreRenamed f ms ns → (o : List ℕ) → IsFirstOrder ms o ↔ IsFirstOrder ns o }
    ensures cycle { (f : ℕ → List ℕ) (ms : List (Module ℕ)) (ns : List (Module (List ℕ))) → AreRenamed f ms ns → (names : List ℕ) → IsCycle ms names → IsCycle ns (map f names) }
    ensures cycle_back { (f : ℕ → List ℕ) (ms : List (Module ℕ)) (ns : List (Module (List ℕ))) → AreRenamed f ms ns
        → (names : List (List ℕ)) → IsCycle ns names → (others : List ℕ) × (IsCycle ms others × (names ≡ map f others)) }
{}
