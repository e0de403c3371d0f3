// Most tests go through a table: a row that fails ends the test, and is named by the message.
use layers::MacroLayer;
use pad::Bench;
use planning::{Fault, Join, Refusal};
use service::{Call, Order};
use std::process::Abort;
use tariffs::{Amount, Bank, Cents};
use trials::faults::refused;

const CENTS: [u32; 6] = [500, 900, 1200, 300, 250, 0];

// What a call answers: the cents that it credits, which are nought if it credits none.
type Credit = Result<u64, Fault>;

fn no_step(place: usize) -> Credit {
    refused(Refusal::NoStep, place, 0, 0, 0)
}

// The bench with load-keys and align joined as action 6.
fn pile() -> MacroLayer<Bench> {
    let mut pile = MacroLayer::new(Bench);
    let _ = pile.add(Join {
        first: 1,
        second: 2,
        kind: 6,
    });
    pile
}

fn credited(answer: Result<Option<Cents>, Fault>) -> Credit {
    answer.map(|credit| credit.map_or(0, |cents| cents.value()))
}

// With no plan every edit is refused by 16, and the quote is nought.
#[test]
fn no_plan(rt: HostRuntime) {
    let calls = [
        Call::Drop(1),
        Call::Swap(0),
        Call::Fold(1, 6),
        Call::Unfold(9),
        Call::Trim,
    ];
    for call in calls {
        let mut order = Order::open(pile(), Bank::new(&CENTS));
        assert_eq!(rt;
            credited(order.perform(call)),
            refused(Refusal::NoPlan, 0, 0, 0, 0),
            "{call:?}"
        );
        assert!(rt; order.plan().is_none());
        assert_eq!(rt; order.quote().value(), 0);
    }
}

// A plan, a call that edits it, the answer, and the plan afterwards.
type Row<'a> = (&'a [u16], Call<'a>, Credit, &'a [u16]);

const SERVICE: &[u16] = &[0, 1, 2, 3];

// What is left is worth the bench's 2,900 cents.
fn check_rows(rt: &impl Abort, rows: &[Row<'_>]) {
    for (plan, call, answer, after) in rows {
        let mut order = Order::open(pile(), Bank::new(&CENTS));
        assert_eq!(rt; order.load(plan), Ok(()), "{plan:?}");
        assert_eq!(rt;
            credited(order.perform(*call)),
            *answer,
            "{plan:?} {call:?}"
        );
        assert_eq!(rt; order.plan(), Some(*after), "{plan:?} {call:?}");
        assert_eq!(rt; order.close().value(), 2900, "{plan:?} {call:?}");
    }
}

#[test]
fn drops(rt: HostRuntime) {
    let early = refused(Refusal::NotApplicable, 1, 0, 1, 0);
    let unsealed = refused(Refusal::GoalNotMet, 4, 3, 1, 0);
    check_rows(
        &rt,
        &[
            (&[0, 4, 1, 2, 3], Call::Drop(2), Ok(250), SERVICE),
            (SERVICE, Call::Drop(1), early, SERVICE),
            (SERVICE, Call::Drop(4), unsealed, SERVICE),
            (SERVICE, Call::Drop(0), no_step(0), SERVICE),
            (SERVICE, Call::Drop(5), no_step(5), SERVICE),
        ],
    );
}

#[test]
fn swaps(rt: HostRuntime) {
    let early = refused(Refusal::NotApplicable, 1, 0, 1, 0);
    check_rows(
        &rt,
        &[
            (SERVICE, Call::Swap(2), Ok(0), &[0, 2, 1, 3]),
            (SERVICE, Call::Swap(1), early, SERVICE),
            (SERVICE, Call::Swap(0), no_step(0), SERVICE),
            (SERVICE, Call::Swap(4), no_step(4), SERVICE),
        ],
    );
}

#[test]
fn folds(rt: HostRuntime) {
    let unknown = refused(Refusal::UnknownAction, 2, 0, 0, 0);
    let others = refused(Refusal::NotTheParts, 1, 0, 0, 0);
    let whole = refused(Refusal::NotTheParts, 3, 0, 0, 0);
    let folded: &[u16] = &[0, 6, 3];
    check_rows(
        &rt,
        &[
            (SERVICE, Call::Fold(2, 6), Ok(0), folded),
            (SERVICE, Call::Fold(2, 7), unknown, SERVICE),
            (SERVICE, Call::Fold(1, 6), others, SERVICE),
            (SERVICE, Call::Fold(4, 7), no_step(4), SERVICE),
            (folded, Call::Unfold(2), Ok(0), SERVICE),
            (folded, Call::Unfold(3), whole, folded),
            (folded, Call::Unfold(4), no_step(4), folded),
        ],
    );
}

// The first of two equal steps goes, and the scan begins again behind each that went.
#[test]
fn trims(rt: HostRuntime) {
    check_rows(
        &rt,
        &[
            (SERVICE, Call::Trim, Ok(0), SERVICE),
            (&[0, 4, 1, 2, 3], Call::Trim, Ok(250), SERVICE),
            (&[0, 2, 1, 2, 3], Call::Trim, Ok(1200), SERVICE),
            (&[0, 1, 2, 3, 0, 2], Call::Trim, Ok(1700), SERVICE),
            (&[0, 4, 0, 6, 3], Call::Trim, Ok(750), &[0, 6, 3]),
        ],
    );
}

// 256 steps, of which one is unfolded: 257 are too many, whatever the steps.
#[test]
fn too_long(rt: HostRuntime) {
    let mut row = [0u16; 256];
    row[254..].copy_from_slice(&[6, 3]);
    let mut order = Order::open(pile(), Bank::new(&CENTS));
    assert_eq!(rt; order.load(&row), Ok(()));
    assert_eq!(rt;
        order.unfold(255),
        Err(Fault::at_place(Refusal::TooManySteps, 257))
    );
    assert_eq!(rt; order.plan().map(|plan| plan.len()), Some(256));
    assert_eq!(rt; order.quote().value(), 129400);
}

// Calls in a row, with their answers and the quote afterwards. With no room for all answers nothing is done.
#[test]
fn calls_in_a_row(rt: HostRuntime) {
    let calls = [Call::Load(&[0, 4, 1, 2, 3]), Call::Swap(9), Call::Trim];
    let mut answers = [Ok(None); 3];
    let mut order = Order::open(pile(), Bank::new(&CENTS));
    assert!(rt; order.carry_out(&calls, &mut answers[0..2]).is_err());
    assert!(rt; order.plan().is_none());
    assert_eq!(rt;
        order
            .carry_out(&calls, &mut answers)
            .map(|quote| quote.value()),
        Ok(2900)
    );
    assert_eq!(rt; answers.map(credited), [Ok(0), no_step(9), Ok(250)]);
}
