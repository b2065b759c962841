// Cases of many points in one call.
use crate::answer::{Answer, Said};
use crate::case::Case;
use solver::Query;

// A record for each of the eight points, with the answer 77 before the call. After it each has its point, and the expected answer or, where
// the call is refused, still 77.
pub(crate) fn test(case: &Case) -> Answer {
    let mut given = [Query {
        point: 0,
        answer: 77,
    }; 8];
    for (i, query) in given.iter_mut().enumerate() {
        query.point = case.call(i + 2);
    }
    let answers = queries::test_eight(case.f.all(), case.p(), case.n(), given);
    let answered = answers.tested.is_ok();
    let same = answers.queries.iter().zip(&given).enumerate().all(|(i, (query, before))| {
        let answer = if answered { case.expected.item(i) } else { 77 };
        query.point == before.point && u64::from(query.answer) == answer
    });
    Answer {
        said: answers.tested.map(|()| Said::Numbers),
        same,
    }
}
