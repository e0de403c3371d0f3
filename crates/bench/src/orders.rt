// Orders over the bench under both rules, with a macro on them.
ghost use Rattle.std.specs.Prelude.{◌≡◌, ◌<◌, ◌≤◌, [], length, map, drop, Err, MatchResult};
ghost use Rattle.std.specs.Result.{result_unwrap_or};
ghost use Rattle.planning.specs.Faults.{at_place};
ghost use Rattle.planning.specs.Orders.{Held};
ghost use Rattle.planning.specs.Piles.{bare, ruled, macros, meaning};
ghost use Rattle.planning.specs.Rows.{rule_row, macro_row};
ghost use Rattle.planning.specs.Runs.{log_of, Run, QuotedTerm};
ghost use Rattle.planning.specs.declared.refusal.Refusal.TheVariants.{BufferTooShort};
ghost use Rattle.service.specs.Calls.{call_of, answer_of};
ghost use Rattle.pad.specs.Bench.{bench};
ghost use Rattle.tariffs.specs.Laws.{cents_amounts};
ghost use Rattle.tariffs.specs.Prices.{bank_price};
ghost use Rattle.bench.specs.Piles.{service_pile};

use crate::layered::{ALIGN_FOR_SEAL, PREPARE, RESET_FIRST};
use crate::show::{Answer, show_title};
use layers::{MacroLayer, RuleLayer};
use pad::Bench;
use planning::{Fault, Join, Rule};
use service::{Call, Order};
use std::io;
use tariffs::{Bank, Cents};
use tasks::task::BuiltTask;

// What each action of the bench is charged.
const CENTS: [u32; 6] = [500, 900, 1200, 300, 250, 0];

fn under_rule<T: BuiltTask>(below: T, rule: Rule, p: u16) -> RuleLayer<T>
    ensures { ruled (T.Task.pile result.below) result.from result.rule result.listed.items ≡ ruled (T.Task.pile below) (meaning (T.Task.pile below)).atoms rule (result_unwrap_or (rule_row (meaning (T.Task.pile below)) [] p) []) }
{
    let mut layer = RuleLayer::new(below, rule);
    let _ = layer.add(p);
    layer
}

fn with_macro<T: BuiltTask>(below: T, row: Join) -> MacroLayer<T>
    ensures { macros (T.Task.pile result.below) result.from result.rows.items ≡ macros (T.Task.pile below) (meaning (T.Task.pile below)).actions (result_unwrap_or (macro_row (meaning (T.Task.pile below)) [] row) []) }
{
    let mut layer = MacroLayer::new(below);
    let _ = layer.add(row);
    layer
}

// The bench under two rules, and a macro on them.
fn service_pile() -> MacroLayer<RuleLayer<RuleLayer<Bench>>>
    ensures { macros (ruled (ruled (bare bench) result.below.below.from result.below.below.rule result.below.below.listed.items) result.below.from result.below.rule result.below.listed.items) result.from result.rows.items ≡ service_pile }
{
    let first = under_rule(Bench, RESET_FIRST, 0);
    let second = under_rule(first, ALIGN_FOR_SEAL, 2);
    with_macro(second, PREPARE)
}

// Carries the calls out on a new order over that pile; answers the quote afterwards.
pub fn serve(
    prices: &[u32],
    calls: &[Call<'_>],
    answers: &mut [Result<Option<Cents>, Fault>],
) -> Result<Cents, Fault>
    ensures short { length answers.old < length calls.now → (result ≡ Err (at_place BufferTooShort 0)) × (answers.new ≡ answers.old) }
    ensures beyond { drop (length calls.now) answers.new ≡ drop (length calls.now) answers.old }
    ensures term { length calls.now ≤ length answers.old → MatchResult result (λ quote. (held : Held) × Run cents_amounts (bank_price prices.now) (meaning service_pile) (log_of (map call_of calls.now) (map answer_of answers.new)) held × QuotedTerm cents_amounts (bank_price prices.now) service_pile (log_of (map call_of calls.now) (map answer_of answers.new)) held quote) (λ _. ⊥) }
{
    let mut order = Order::open(service_pile(), Bank::new(prices));
    order.carry_out(calls, answers)
}

pub fn show_orders(rt: &HostRuntime) -> io::Result<()> {
    show_title(rt, "an order over both rules and the macro on them")?;
    let calls = [
        Call::Trim,
        Call::Load(&[0, 4, 6, 3, 5]),
        Call::Load(&[0, 4, 6, 3, 0]),
        Call::Swap(2),
        Call::Unfold(3),
        Call::Fold(3, 6),
        Call::Trim,
        Call::Drop(2),
    ];
    let mut answers = [Ok(None); 8];
    let quote = serve(&CENTS, &calls, &mut answers);
    for (call, answer) in calls.iter().zip(&answers) {
        println!(rt; "  {call:?}: {}", Answer(*answer))?;
    }
    println!(rt; "  quote: {}", Answer(quote.map(Some)))
}
