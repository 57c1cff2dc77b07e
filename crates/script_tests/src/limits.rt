// Scripts at both sides of each limit.
use crate::reading::read;
use lines::{Layer, Place};
use std::alloc::AllocError;
use std::test::Fail;

// A line that comes so often, what stands behind, and the fault's number and place; with none the script is accepted.
struct Row {
    line: &'static str,
    times: u32,
    tail: &'static str,
    fault: Option<(u32, Place)>,
}

const ROWS: [Row; 9] = [
    Row {
        line: "job a 1\n",
        times: 199,
        tail: "",
        fault: None,
    },
    Row {
        line: "job a 1\n",
        times: 200,
        tail: "",
        fault: Some((
            7,
            Place {
                line: 200,
                byte: 1592,
            },
        )),
    },
    Row {
        line: "job a 1\n",
        times: 199,
        tail: "make b\n",
        fault: Some((
            7,
            Place {
                line: 200,
                byte: 1592,
            },
        )),
    },
    Row {
        line: "fail a 999\n",
        times: 20,
        tail: "job a 20\n",
        fault: None,
    },
    Row {
        line: "job a 999\n",
        times: 20,
        tail: "fail a 21\n",
        fault: Some((
            8,
            Place {
                line: 21,
                byte: 200,
            },
        )),
    },
    Row {
        line: "make a\n",
        times: 7,
        tail: "job b 1\ndone\ndone\ndone\ndone\ndone\ndone\ndone\n",
        fault: None,
    },
    Row {
        line: "make a\n",
        times: 8,
        tail: "",
        fault: Some((6, Place { line: 8, byte: 49 })),
    },
    Row {
        line: "  ",
        times: 8188,
        tail: "job a 1\n",
        fault: None,
    },
    Row {
        line: "  ",
        times: 8188,
        tail: " job a 1\n",
        fault: Some((1, Place { line: 0, byte: 0 })),
    },
];

// The text of a row.
fn text_of(rt: &HostRuntime, row: &Row) -> Result<String, AllocError> {
    let mut text = String::new(rt.alloc());
    for _ in 0..row.times {
        text.push_str(row.line)?;
    }
    text.push_str(row.tail)?;
    Ok(text)
}

#[test]
fn both_sides(rt: HostRuntime) -> Result<(), Fail> {
    for row in &ROWS {
        let text = text_of(&rt, row)?;
        let (tree, fault) = read(&rt, text.as_str())?;
        let told = fault.map(|fault| (fault.number(), fault.place()));
        assert_eq!(rt; told, row.fault, "{}", row.line);
        if let Some(fault) = fault {
            assert_eq!(rt; fault.layer(), Layer::Tree, "{}", row.line);
            assert_eq!(rt; tree.count(), 2, "{}", row.line);
        }
    }
    Ok(())
}
