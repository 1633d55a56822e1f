//! What holds of every gate, whatever steps its keeper and its passes take, and in whatever order.
ghost use Rattle.std.specs.Prelude.{◌≡◌, ◌⊎◌, ℕ, ◌<◌, List, [], ◌∷◌, ◌++◌, Some, IsTrue, IsNone, slice_set};
ghost use mathlib.Core.Option.{some};
ghost use lib.ListN.{get_elem?};
ghost use denote.Param.Send.{IsSend, IsSync};
ghost use Rattle.cs_gate.specs.contracts.keeper.Keeper as keeper_row;
ghost use Rattle.cs_gate.specs.contracts.pass.Pass as pass_row;
ghost use Rattle.cs_gate.specs.declared.views.PassState.TheVariants.{Out, Inside};
ghost use Rattle.cs_gate.specs.declared.views.KeeperState.TheVariants.{Open, Shut, Drained};
ghost use Rattle.cs_gate.specs.declared.views.Role.TheVariants as roles;
ghost use Rattle.cs_gate.specs.declared.views.View.{View};
ghost use Rattle.cs_gate.specs.declared.views.Plan.{Plan};
ghost use Rattle.cs_gate.specs.Gate.{Reaches, MeetsRule, HasRole, NobodyIsInside, HoldsGeneration, StepKind, MayStep, word_after, view_after, view_after_split, new_pass, spent_view, is_drained};
ghost use Rattle.cs_gate.specs.Handles.{KeeperHandle, PassHandle, KeeperFinds, PassFinds};

/// The rule is inductive: where it holds, it holds after a step of any kind, after a pass is split
/// off, and after a pass that is out is joined to another seat.
pub fn each_step_keeps_the_rule()
    ensures steps { (plan : Plan) (word : ℕ) (views : List View) (seat : ℕ) (v : View) (kind : StepKind)
        → MeetsRule plan word views → get_elem? views seat ≡ some v → MayStep kind v.role
        → MeetsRule plan (word_after kind v.role word) (slice_set views seat (view_after kind word v)) }
    ensures splits { (plan : Plan) (word : ℕ) (views : List View) (seat : ℕ) (v : View)
        → MeetsRule plan word views → get_elem? views seat ≡ some v → 0 < v.spare
        → MeetsRule plan word (slice_set views seat (view_after_split v) ++ new_pass ∷ []) }
    ensures joins { (plan : Plan) (word : ℕ) (views : List View) (seat : ℕ) (v : View)
        → MeetsRule plan word views → get_elem? views seat ≡ some v → v.role ≡ roles.Pass Out → v.spare ≡ 0
        → MeetsRule plan word (slice_set views seat spent_view) }
{}

/// The rule holds between any two steps of up to 64 passes and their keeper.
pub fn the_rule_always_holds()
    ensures { (plan : Plan) (word : ℕ) (views : List View) → Reaches plan word views
        → MeetsRule plan word views }
{}

/// Nobody is inside while the keeper is drained.
pub fn nobody_is_inside_when_drained()
    ensures always { (plan : Plan) (word : ℕ) (views : List View) (seat g : ℕ)
        → Reaches plan word views → HasRole views seat (roles.Keeper (Drained g)) → NobodyIsInside views }

    // So it is of a keeper and a pass of one gate, between any two steps.
    ensures handles { (k : KeeperHandle) (p : PassHandle) (word : ℕ) (views : List View)
        → KeeperFinds k word views → PassFinds p word views → IsTrue (is_drained k.state) → IsNone p.inside }
{}

/// While a pass is inside, the keeper is open or shut in the pass's generation.
pub fn who_is_inside_holds_the_generation()
    ensures always { (plan : Plan) (word : ℕ) (views : List View) (seat g : ℕ)
        → Reaches plan word views → HasRole views seat (roles.Pass (Inside g)) → HoldsGeneration views g }

    // So it is of a keeper and a pass of one gate, between any two steps.
    ensures handles { (k : KeeperHandle) (p : PassHandle) (word : ℕ) (views : List View) (g : ℕ)
        → KeeperFinds k word views → PassFinds p word views
        → p.inside ≡ Some g → (k.state ≡ Open g) ⊎ (k.state ≡ Shut g) }
{}

/// A keeper and a pass may go to other threads, and a reference to one tells every thread the same.
pub fn handles_may_cross_threads()
    ensures keeper { IsSend keeper_row.the_row × IsSync keeper_row.the_row }
    ensures pass { IsSend pass_row.the_row × IsSync pass_row.the_row }
{}
