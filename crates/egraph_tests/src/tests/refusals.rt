// By which number and value each refusal is told.
use model::error::{Cause, TableName};

fn told(cause: Cause) -> (u32, usize) {
    let value = match cause {
        Cause::UnknownEnode(enode) | Cause::NotFirstEnd(enode) => enode as usize,
        Cause::Full(table) => table as usize,
        Cause::FrameLimit(height) => height as usize,
        Cause::OnlyBase => 0,
        Cause::Short(needed) => needed,
        Cause::Unreadable(place) => place as usize,
    };
    (cause.number(), value)
}

#[test]
fn each_has_a_number_and_a_value(rt: HostRuntime) {
    assert_eq!(rt; told(Cause::UnknownEnode(5)), (1, 5));
    assert_eq!(rt; told(Cause::NotFirstEnd(2)), (3, 2));
    assert_eq!(rt; told(Cause::Full(TableName::Enodes)), (4, 0));
    assert_eq!(rt; told(Cause::Full(TableName::Givens)), (4, 1));
    assert_eq!(rt; told(Cause::Full(TableName::Arguments)), (4, 2));
    assert_eq!(rt; told(Cause::Full(TableName::FrameCount)), (4, 3));
    assert_eq!(rt; told(Cause::FrameLimit(64)), (7, 64));
    assert_eq!(rt; told(Cause::OnlyBase), (8, 0));
    assert_eq!(rt; told(Cause::Short(3)), (9, 3));
    assert_eq!(rt; told(Cause::Unreadable(1)), (10, 1));
}
