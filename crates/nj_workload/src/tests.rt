use super::*;
use std::test::Fail;

// Computed outside this program from the constants of the generator.
const SCRIPT_OF_0: &str =
    "{\"version\":1,\"properties\":[{\"name\":\"x\",\"at\":16,\"kind\":\"u8\"},{\"name\":\"y\",\"at\":17,\"kind\":\"u8\"}],\"hash\":[\"x\",\"y\"],\"inputs\":[{\"pads\":[\"...R....\",\"..L.....\",\".D......\",\"U.......\",\".......A\",\"......B.\"]}],\"rules\":[{\"name\":\"goal\",\"when\":[{\"property\":\"x\",\"op\":\"==\",\"value\":190},{\"property\":\"y\",\"op\":\"==\",\"value\":0}],\"win\":true}]}";

#[test]
fn the_workload_of_0(rt: HostRuntime) -> Result<(), Fail> {
    let made = make_workload(rt.alloc(), 0)?;
    assert_eq!(rt; made.cart.len(), 24_592);
    assert_eq!(rt; *made.cart.at(272), 0x14);
    assert_eq!(rt; *made.cart.at(527), 65);
    assert_eq!(rt; *made.cart.at(528), 98);
    assert_eq!(rt; *made.cart.at(783), 112);
    assert_eq!(rt; made.script.as_str(), SCRIPT_OF_0);
    assert_eq!(rt; made.start.len(), 2800);
    Ok(())
}
