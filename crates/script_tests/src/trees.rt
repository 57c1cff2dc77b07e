// Scripts with their trees, node by node.
use script::read_script;
use std::test::Fail;
use tree::{Kind, Tree};

// A script, and one of its nodes: a wait may stand before it.
struct Row {
    text: &'static str,
    count: u32,
    node: u32,
    kind: Kind,
    make: Option<u32>,
    level: u32,
    steps: u32,
    wait: bool,
}

const MIXED: &str = "job a 2\nmake lib\n  job b 1\n  fail c 2\n  job d 1\ndone\nwait\njob e 1\n";

const FIRST_WAIT: &str = "wait\njob a 1\n";

const LAST_WAIT: &str = "job a 1\nwait\n";

const TWO_WAITS: &str = "job a 1\nwait\nwait\njob b 999\n";

const WAIT_BEFORE_DONE: &str = "make m\njob a 1\nwait\ndone\njob abcdefghijkl 1\n";

const WAIT_AFTER_MAKE: &str = "job a 1\nmake m\nwait\njob b 1\ndone\n";

const ROWS: [Row; 13] = [
    Row {
        text: MIXED,
        count: 7,
        node: 0,
        kind: Kind::Make,
        make: None,
        level: 0,
        steps: 0,
        wait: false,
    },
    Row {
        text: MIXED,
        count: 7,
        node: 1,
        kind: Kind::Job,
        make: Some(0),
        level: 0,
        steps: 2,
        wait: false,
    },
    Row {
        text: MIXED,
        count: 7,
        node: 2,
        kind: Kind::Make,
        make: Some(0),
        level: 1,
        steps: 0,
        wait: false,
    },
    Row {
        text: MIXED,
        count: 7,
        node: 3,
        kind: Kind::Job,
        make: Some(2),
        level: 1,
        steps: 1,
        wait: false,
    },
    Row {
        text: MIXED,
        count: 7,
        node: 4,
        kind: Kind::Fail,
        make: Some(2),
        level: 1,
        steps: 2,
        wait: false,
    },
    Row {
        text: MIXED,
        count: 7,
        node: 5,
        kind: Kind::Job,
        make: Some(2),
        level: 1,
        steps: 1,
        wait: false,
    },
    Row {
        text: MIXED,
        count: 7,
        node: 6,
        kind: Kind::Job,
        make: Some(0),
        level: 0,
        steps: 1,
        wait: true,
    },
    Row {
        text: FIRST_WAIT,
        count: 2,
        node: 1,
        kind: Kind::Job,
        make: Some(0),
        level: 0,
        steps: 1,
        wait: false,
    },
    Row {
        text: LAST_WAIT,
        count: 2,
        node: 1,
        kind: Kind::Job,
        make: Some(0),
        level: 0,
        steps: 1,
        wait: false,
    },
    Row {
        text: TWO_WAITS,
        count: 3,
        node: 2,
        kind: Kind::Job,
        make: Some(0),
        level: 0,
        steps: 999,
        wait: true,
    },
    Row {
        text: WAIT_BEFORE_DONE,
        count: 4,
        node: 2,
        kind: Kind::Job,
        make: Some(1),
        level: 1,
        steps: 1,
        wait: false,
    },
    Row {
        text: WAIT_BEFORE_DONE,
        count: 4,
        node: 3,
        kind: Kind::Job,
        make: Some(0),
        level: 0,
        steps: 1,
        wait: false,
    },
    Row {
        text: WAIT_AFTER_MAKE,
        count: 4,
        node: 3,
        kind: Kind::Job,
        make: Some(2),
        level: 1,
        steps: 1,
        wait: false,
    },
];

#[test]
fn nodes(rt: HostRuntime) -> Result<(), Fail> {
    for row in &ROWS {
        let mut tree = Tree::new(rt.alloc())?;
        read_script(&mut tree, rt.alloc(), row.text.as_bytes())?;
        assert_eq!(rt; tree.count(), row.count, "{}", row.text);
        assert_eq!(rt; tree.kind(row.node)?, row.kind, "{}", row.text);
        assert_eq!(rt; tree.make(row.node)?, row.make, "{}", row.text);
        assert_eq!(rt; tree.level(row.node)?, row.level, "{}", row.text);
        assert_eq!(rt; tree.steps(row.node)?, row.steps, "{}", row.text);
        assert_eq!(rt; tree.wait(row.node)?, row.wait, "{}", row.text);
    }
    Ok(())
}

#[test]
fn totals(rt: HostRuntime) -> Result<(), Fail> {
    let mut tree = Tree::new(rt.alloc())?;
    assert_eq!(rt; tree.schedule_len(), 33);
    read_script(&mut tree, rt.alloc(), MIXED.as_bytes())?;
    assert_eq!(rt; tree.total_steps(), 7);
    assert_eq!(rt; tree.schedule_len(), 105);
    assert_eq!(rt; tree.subtree_steps(0)?, 7);
    assert_eq!(rt; tree.subtree_steps(2)?, 4);
    assert_eq!(rt; tree.subtree_steps(1)?, 2);
    let children = tree.children(rt.alloc(), 0)?;
    assert_eq!(rt; children.as_slice(), [1, 2, 6].as_slice());
    assert_eq!(rt; tree.children(rt.alloc(), 4)?.len(), 0);
    assert!(rt; tree.kind(7).is_err());
    Ok(())
}

// A copy in the memory of a tree with room, and of one that has too little.
#[test]
fn copies(rt: HostRuntime) -> Result<(), Fail> {
    let mut tree = Tree::new(rt.alloc())?;
    read_script(&mut tree, rt.alloc(), MIXED.as_bytes())?;
    let mut roomy = Tree::with_room(rt.alloc())?;
    assert_eq!(rt; roomy.count(), 2);
    roomy.copy_from(&tree)?;
    assert_eq!(rt; roomy.count(), 7);
    assert_eq!(rt; roomy.steps(4)?, 2);
    assert_eq!(rt; roomy.total_steps(), 7);
    let mut small = Tree::new(rt.alloc())?;
    small.copy_from(&tree)?;
    assert_eq!(rt; small.count(), 7);
    assert!(rt; small.wait(6)?);
    Ok(())
}
