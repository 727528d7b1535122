// The laws, at the types of headers, of answers and of records that are in use.
use crate::header::Header;
use crate::laws::{decided_stays, judged_exactly};
use crate::rec::Rec;

#[test]
fn they_are_called_at_types(_rt: HostRuntime) {
    decided_stays::<Header, bool>();
    judged_exactly::<Header, Rec>();
}
