ghost use Rattle.std.specs.Prelude.{◌≡◌, ◌↔◌};
ghost use Rattle.atoms.specs.Has.{has};
ghost use Rattle.planning.specs.Sets.{AtomSet, none, ◌⊆◌, ◌∪◌, ◌∩◌, ◌∖◌};
ghost use Rattle.layers.specs.Joining.{Follows};

use atoms::Atoms;
use tasks::Action;

// What the second action needs and the first deletes without adding it.
pub fn clash(first: Action, second: Action) -> Atoms
    ensures { has result ≡ has second.needs ∩ (has first.deletes ∖ has first.adds) }
{
    second.needs.intersection(first.deletes.minus(first.adds))
}

// The first action and then the second, as one.
pub fn join_actions(first: Action, second: Action, kind: u16) -> Action
    ensures needs { has result.needs ≡ has first.needs ∪ has second.needs ∖ has first.adds }
    ensures deletes { has result.deletes ≡ has first.deletes ∪ has second.deletes }
    ensures adds { has result.adds ≡ has second.adds ∪ has first.adds ∖ has second.deletes }
    ensures kind { result.kind ≡ kind }
    ensures acts { has second.needs ∩ (has first.deletes ∖ has first.adds) ⊆ none → Follows first second result }
{
    Action {
        needs: first.needs.union(second.needs.minus(first.adds)),
        deletes: first.deletes.union(second.deletes),
        adds: second.adds.union(first.adds.minus(second.deletes)),
        kind,
    }
}
