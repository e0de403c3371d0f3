ghost use Rattle.std.specs.Prelude.{◌≡◌, []};
ghost use Rattle.std.specs.Result.{result_unwrap_or};
ghost use Rattle.planning.specs.Macros.{macro_task};
ghost use Rattle.planning.specs.Marks.{rule_task};
ghost use Rattle.planning.specs.Rows.{rule_row, macro_row};
ghost use Rattle.planning.specs.Verdicts.{judged};
ghost use Rattle.pad.specs.Bench.{bench};

use crate::bench::Bench;
use layers::{MacroLayer, RuleLayer};
use planning::{Fault, Join, Rule};
use tasks::judge;

// The verdict on a plan over the bench under a rule for the atom `p`; for no atom, if `p` is refused.
pub fn judge_ruled(rule: Rule, p: u16, plan: &[u16]) -> Result<(), Fault>
    ensures { result ≡ judged (rule_task bench rule (result_unwrap_or (rule_row bench [] p) [])) plan.now }
{
    let mut layer = RuleLayer::new(Bench, rule);
    let _ = layer.add(p);
    judge(&layer, plan)
}

// The verdict on a plan over the bench with a macro; with none, if the row is refused. A function of its own: a trait over both
// sorts of layer would need a member for the row, for the rows' task and for `add`, to save one of these two.
pub fn judge_joined(row: Join, plan: &[u16]) -> Result<(), Fault>
    ensures { result ≡ judged (macro_task bench (result_unwrap_or (macro_row bench [] row) [])) plan.now }
{
    let mut layer = MacroLayer::new(Bench);
    let _ = layer.add(row);
    judge(&layer, plan)
}
