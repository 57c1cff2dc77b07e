// Whole inputs.
use report::report;
use std::test::Fail;

#[test]
fn inputs_and_what_is_printed(rt: HostRuntime) -> Result<(), Fail> {
    let cases: [(&str, &str); 9] = [
        (
            "sem 1\njob a 7\n",
            "obtained 43 in 0 out 1 ready 0\nnone\nreleased 43 in 1 out 0 ready 1\nnode 0 make level 0 steps 0\nnode 1 job level 0 steps 7 in 0\n",
        ),
        ("", "refused 3 0\n"),
        ("pipe x", "refused 3 0\n"),
        ("sem 0\n", "refused 5 0\n"),
        ("sem 64 keep\n", "refused 13 0\n"),
        // the first line comes before all faults of the script
        ("sem 64\ndone\n", "refused 13 0\n"),
        ("pipe x\n", "refused 10 1\n"),
        ("pipe x\ndone\n", "refused 9 1\n"),
        ("pipe x\njob a 1\njob b 0\n", "refused 5 2\n"),
    ];
    for (input, text) in cases {
        let printed = report(rt.alloc(), input.as_bytes())?;
        assert_eq!(rt; printed.as_slice(), text.as_bytes());
    }
    Ok(())
}
