// What the words after a program's name ask for.
use options::{Limit, Options, Parser, Request, Slip};
use std::test::Fail;

fn asked(words: &[&str]) -> Result<Request, Slip> {
    words
        .iter()
        .try_fold(Parser::new(), |parser, word| parser.take(word))?
        .finish()
}

fn run(cells: u32, depth: u32, turns: u64) -> Request {
    Request::Run(Options {
        cells,
        depth,
        turns,
    })
}

#[test]
fn limits_that_are_given_or_not(rt: HostRuntime) -> Result<(), Fail> {
    assert_eq!(rt; asked(&[])?, run(1_000, 1_000, 1_000_000_000));
    assert_eq!(rt; asked(&["--turns", "007"])?, run(1_000, 1_000, 7));
    assert_eq!(rt;
        asked(&["--depth", "0", "--cells", "2", "--turns", "3"])?,
        run(2, 0, 3)
    );
    assert_eq!(rt; asked(&["--cells", "3", "--help"])?, Request::Usage);
    Ok(())
}

#[test]
fn limits_from_both_sides(rt: HostRuntime) -> Result<(), Fail> {
    assert_eq!(rt;
        asked(&["--cells", "50000"])?,
        run(50_000, 1_000, 1_000_000_000)
    );
    assert_eq!(rt;
        asked(&["--cells", "50001"]),
        Err(Slip::TooLarge(Limit::Cells))
    );
    assert_eq!(rt;
        asked(&["--depth", "1250"])?,
        run(1_000, 1_250, 1_000_000_000)
    );
    assert_eq!(rt;
        asked(&["--depth", "1251"]),
        Err(Slip::TooLarge(Limit::Depth))
    );
    assert_eq!(rt;
        asked(&["--turns", "1000000000000000001"]),
        Err(Slip::TooLarge(Limit::Turns))
    );
    assert_eq!(rt;
        asked(&["--turns", "99999999999999999999999"]),
        Err(Slip::TooLarge(Limit::Turns))
    );
    Ok(())
}

#[test]
fn words_that_are_refused(rt: HostRuntime) {
    let refused: [(&[&str], Slip); 8] = [
        (&["--cell", "1"], Slip::Unknown),
        (&["rows"], Slip::Extra),
        (&[""], Slip::Extra),
        (&["--turns"], Slip::Missing(Limit::Turns)),
        (&["--turns", "+1"], Slip::NoNumber(Limit::Turns)),
        (&["--turns", ""], Slip::NoNumber(Limit::Turns)),
        (&["--turns", "--cells"], Slip::NoNumber(Limit::Turns)),
        (&["--depth", "1", "--depth", "1"], Slip::Twice(Limit::Depth)),
    ];
    for (words, slip) in refused {
        assert_eq!(rt; asked(words), Err(slip));
    }
}
