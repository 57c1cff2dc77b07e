// A table of short scripts that are refused.
use crate::reading::read;
use lines::{Layer, Place};
use std::test::Fail;

struct Row {
    text: &'static str,
    number: u32,
    layer: Layer,
    place: Place,
}

const ROWS: [Row; 38] = [
    Row {
        text: "",
        number: 10,
        layer: Layer::Tree,
        place: Place { line: 1, byte: 0 },
    },
    Row {
        text: "wait\n",
        number: 10,
        layer: Layer::Tree,
        place: Place { line: 2, byte: 5 },
    },
    Row {
        text: "make a\ndone\n",
        number: 10,
        layer: Layer::Tree,
        place: Place { line: 2, byte: 7 },
    },
    Row {
        text: "make a\nwait\ndone\n",
        number: 10,
        layer: Layer::Tree,
        place: Place { line: 3, byte: 12 },
    },
    Row {
        text: "done\n",
        number: 9,
        layer: Layer::Tree,
        place: Place { line: 1, byte: 0 },
    },
    Row {
        text: "job a 1\ndone\n",
        number: 9,
        layer: Layer::Tree,
        place: Place { line: 2, byte: 8 },
    },
    Row {
        text: "make a\njob b 1\n",
        number: 9,
        layer: Layer::Tree,
        place: Place { line: 3, byte: 15 },
    },
    Row {
        text: "make a\n",
        number: 9,
        layer: Layer::Tree,
        place: Place { line: 2, byte: 7 },
    },
    Row {
        text: "job a 1\nJob b 1\n",
        number: 2,
        layer: Layer::Word,
        place: Place { line: 2, byte: 8 },
    },
    Row {
        text: "job a 1\r\n",
        number: 2,
        layer: Layer::Word,
        place: Place { line: 1, byte: 0 },
    },
    Row {
        text: "job\ta 1\n",
        number: 2,
        layer: Layer::Word,
        place: Place { line: 1, byte: 0 },
    },
    Row {
        text: "job a 1\nX",
        number: 2,
        layer: Layer::Word,
        place: Place { line: 2, byte: 8 },
    },
    Row {
        text: "job a 1",
        number: 3,
        layer: Layer::Line,
        place: Place { line: 1, byte: 0 },
    },
    Row {
        text: "job a 1\n ",
        number: 3,
        layer: Layer::Line,
        place: Place { line: 2, byte: 8 },
    },
    Row {
        text: "\n",
        number: 3,
        layer: Layer::Line,
        place: Place { line: 1, byte: 0 },
    },
    Row {
        text: "   \n",
        number: 3,
        layer: Layer::Line,
        place: Place { line: 1, byte: 0 },
    },
    Row {
        text: "job  1\n",
        number: 3,
        layer: Layer::Line,
        place: Place { line: 1, byte: 0 },
    },
    Row {
        text: "job  a 1\n",
        number: 3,
        layer: Layer::Line,
        place: Place { line: 1, byte: 0 },
    },
    Row {
        text: "job a 1 \n",
        number: 3,
        layer: Layer::Line,
        place: Place { line: 1, byte: 0 },
    },
    Row {
        text: "job a\n",
        number: 3,
        layer: Layer::Line,
        place: Place { line: 1, byte: 0 },
    },
    Row {
        text: "make\n",
        number: 3,
        layer: Layer::Line,
        place: Place { line: 1, byte: 0 },
    },
    Row {
        text: "make a 1\n",
        number: 3,
        layer: Layer::Line,
        place: Place { line: 1, byte: 0 },
    },
    Row {
        text: "make \n",
        number: 3,
        layer: Layer::Line,
        place: Place { line: 1, byte: 0 },
    },
    Row {
        text: "done x\n",
        number: 3,
        layer: Layer::Line,
        place: Place { line: 1, byte: 0 },
    },
    Row {
        text: "wait 1\n",
        number: 3,
        layer: Layer::Line,
        place: Place { line: 1, byte: 0 },
    },
    Row {
        text: "jobs a 1\n",
        number: 3,
        layer: Layer::Line,
        place: Place { line: 1, byte: 0 },
    },
    Row {
        text: "job a 1\n  make b\n    done 1\n",
        number: 3,
        layer: Layer::Line,
        place: Place { line: 3, byte: 17 },
    },
    Row {
        text: "job abcdefghijklm 1\n",
        number: 4,
        layer: Layer::Word,
        place: Place { line: 1, byte: 0 },
    },
    Row {
        text: "make abcdefghijklm\n",
        number: 4,
        layer: Layer::Word,
        place: Place { line: 1, byte: 0 },
    },
    Row {
        text: "job a 0\n",
        number: 5,
        layer: Layer::Word,
        place: Place { line: 1, byte: 0 },
    },
    Row {
        text: "job a 01\n",
        number: 5,
        layer: Layer::Word,
        place: Place { line: 1, byte: 0 },
    },
    Row {
        text: "fail a 1000\n",
        number: 5,
        layer: Layer::Word,
        place: Place { line: 1, byte: 0 },
    },
    Row {
        text: "job a 1x\n",
        number: 5,
        layer: Layer::Word,
        place: Place { line: 1, byte: 0 },
    },
    Row {
        text: "job abcdefghijklm 0\n",
        number: 4,
        layer: Layer::Word,
        place: Place { line: 1, byte: 0 },
    },
    Row {
        text: "job abcdefghijklm 1 x\n",
        number: 3,
        layer: Layer::Line,
        place: Place { line: 1, byte: 0 },
    },
    Row {
        text: "Job abcdefghijklm\n",
        number: 2,
        layer: Layer::Word,
        place: Place { line: 1, byte: 0 },
    },
    Row {
        text: "job a 0\njob b\n",
        number: 5,
        layer: Layer::Word,
        place: Place { line: 1, byte: 0 },
    },
    Row {
        text: "job b\njob a 0\n",
        number: 3,
        layer: Layer::Line,
        place: Place { line: 1, byte: 0 },
    },
];

#[test]
fn refused(rt: HostRuntime) -> Result<(), Fail> {
    for row in &ROWS {
        let (_, fault) = read(&rt, row.text)?;
        let fault = fault.ok_or("accepted")?;
        assert_eq!(rt; fault.number(), row.number, "{}", row.text);
        assert_eq!(rt; fault.layer(), row.layer, "{}", row.text);
        assert_eq!(rt; fault.place(), row.place, "{}", row.text);
    }
    Ok(())
}
