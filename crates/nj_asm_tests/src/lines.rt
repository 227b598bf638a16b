use nj_asm_lines::{Fault, Statement, read_lines};
use std::test::Fail;

#[test]
fn lines_are_read(rt: HostRuntime) -> Result<(), Fail> {
    let source = b"here: lda #$80 ; a comment\n.org 4660\nFOO\r\n";
    let lines = read_lines(rt.alloc(), source)?;
    let lines = lines.as_slice();
    assert_eq!(rt; lines.len(), 3);
    assert!(rt; lines[0].label.is_some());
    assert!(rt;
        matches!(&lines[0].statement, Statement::Cells(cells) if cells.as_slice().len() == 2)
    );
    assert!(rt; matches!(lines[1].statement, Statement::Origin(0x1234)));
    assert!(rt; matches!(lines[2].statement, Statement::Refused(Fault::UnknownOp)));
    Ok(())
}
