use super::*;

#[test]
fn numbers(rt: HostRuntime) {
    let rows = [
        (Refusal::BadLength, 1),
        (Refusal::BadSize, 2),
        (Refusal::SpareBit, 3),
        (Refusal::BadKindOrName, 4),
        (Refusal::NameTaken, 5),
        (Refusal::MalformedLine, 6),
        (Refusal::UnknownName, 7),
        (Refusal::TooManySteps, 8),
        (Refusal::UnknownAction, 9),
        (Refusal::NotApplicable, 10),
        (Refusal::GoalNotMet, 11),
        (Refusal::BadAtom, 12),
        (Refusal::TableFull, 13),
        (Refusal::NotJoinable, 14),
        (Refusal::OverLimit, 15),
        (Refusal::NoPlan, 16),
        (Refusal::NoStep, 17),
        (Refusal::NotTheParts, 18),
        (Refusal::BufferTooShort, 19),
    ];
    for (refusal, number) in rows {
        assert_eq!(rt; refusal.number(), number, "{refusal:?}");
    }
}
