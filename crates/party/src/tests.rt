// What refuses a call need be none of document 01's refusals.
use crate::make::{ended, refused_with};
use crate::{Answer, carried, number};
use record::Record;
use std::test::Fail;

#[test]
fn any_number_may_refuse(rt: HostRuntime) -> Result<(), Fail> {
    for refusal in [0, 13, u32::MAX] {
        let kept = refused_with(refusal, Record::begun(0, 7));
        assert_eq!(rt; kept.rec.v, 7);
        assert_eq!(rt; number(kept.answer), refusal);
        assert_eq!(rt; carried(kept.answer), 0);
        let idle = ended(kept.answer);
        assert_eq!(rt; idle.rec.v, 0);
        assert_eq!(rt; number(idle.answer), refusal);
    }
    let popped = ended::<u32>(Ok(Answer::Popped(7)));
    assert_eq!(rt; number(popped.answer), 17);
    assert_eq!(rt; carried(popped.answer), 7);
    Ok(())
}
