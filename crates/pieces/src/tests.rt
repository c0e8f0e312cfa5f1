// What the records so far are refused for need be none of document 01's refusals.
use crate::writing::next_refusal;
use record::Record;
use std::test::Fail;

#[test]
fn any_number_may_refuse_so_far(rt: HostRuntime) -> Result<(), Fail> {
    for number in [0, 13, u32::MAX] {
        assert_eq!(rt; next_refusal(Err(number), 64, Record::idle()), Err(number));
        assert_eq!(rt;
            next_refusal(Err(number), 64, Record::idle().at_stage(6)),
            Err(4)
        );
    }
    assert_eq!(rt; next_refusal::<u32>(Ok(()), 64, Record::idle()), Ok(()));
    Ok(())
}
