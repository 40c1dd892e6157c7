use bern_base::{Entry, Rule, Val};
use mm_text::{FeedError, MatrixFeed, MmError, read_matrix};
use std::test::Fail;

fn entry(row: u32, col: u32, value: u64) -> Entry {
    Entry {
        row,
        col,
        value: Val::new(value),
    }
}

/// Other lines among the entries, words in either case, and numbers that are spelled in all the ways there are.
const SPELLINGS: &[u8] =
    b"%%MATRIXMARKET Matrix COORDINATE Integer GENERAL\r\n\t\r\n% 9 9\n\n  3\t4  007 \r\n1 1 +5\n  % 1 1\n\t1 2\t-000000000000000000001\r\n%\n2 0003 18446744073709551615\n\n2 3 2\n3 4 -9223372036854775808\n3 1 00004\n3 1 -4";

/// Plain lines, the columns of a row in any order, with others among them.
const ROW_BY_ROW: &[u8] =
    b"%%MatrixMarket matrix coordinate integer general\n2 4 5\n1 4 2\r\n1\t3 18446744073709551615\n1 2 -9223372036854775808\n%\n2  1 +5\n1 4 0000000000000000005";

const SYMMETRIC: &[u8] = b"%%MatrixMarket matrix coordinate pattern symmetric\n2 2 2\n1 1\n2 1\n";

const SKEW: &[u8] = b"%%MatrixMarket matrix array integer skew-symmetric\n2 2\n7\n";

#[test]
fn a_file_cut_in_two_at_any_place_has_its_matrix(rt: HostRuntime) -> Result<(), Fail> {
    let minus_one = u64::MAX;
    let table: [(&[u8], &[Entry]); 4] = [
        (
            SPELLINGS,
            &[
                entry(0, 0, 5),
                entry(0, 1, minus_one),
                entry(1, 2, 1),
                entry(2, 0, 0),
                entry(2, 3, 1 << 63),
            ],
        ),
        (
            ROW_BY_ROW,
            &[
                entry(0, 1, 1 << 63),
                entry(0, 2, minus_one),
                entry(0, 3, 7),
                entry(1, 0, 5),
            ],
        ),
        (SYMMETRIC, &[entry(0, 0, 1), entry(0, 1, 1), entry(1, 0, 1)]),
        (SKEW, &[entry(0, 1, minus_one - 6), entry(1, 0, 7)]),
    ];
    for (text, entries) in table {
        for cut in 0..=text.len() {
            let (front, rest) = text.split_at(cut);
            let mut feed = MatrixFeed::new(rt.alloc());
            feed.feed(front)?;
            feed.feed(rest)?;
            let matrix = feed.finish()?;
            assert_eq!(rt; matrix.entries.as_slice(), entries, "at {cut}");
        }
    }
    Ok(())
}

#[test]
fn the_first_refusal_is_named_by_its_line_and_rule(rt: HostRuntime) {
    let table: [(&[u8], u64, Rule); 11] = [
        (b"%%MatrixMarket matrix\r", 1, Rule::M1),
        (
            b"%%MatrixMarket matrix coordinate real general\n",
            1,
            Rule::M2,
        ),
        (
            b"%%MatrixMarket matrix coordinate integer general\n% 1\n\n\r",
            5,
            Rule::M3,
        ),
        (
            b"%%MatrixMarket matrix array integer general\n4096 4097\n",
            2,
            Rule::M4,
        ),
        (
            b"%%MatrixMarket matrix coordinate integer symmetric\n2 3 0\n",
            2,
            Rule::M5,
        ),
        (
            b"%%MatrixMarket matrix coordinate integer general\n2 2 1\n0 1 5x\n",
            3,
            Rule::M6,
        ),
        (
            b"%%MatrixMarket matrix coordinate pattern general\n2 2 1\n% 3\n1 3\n",
            4,
            Rule::M7,
        ),
        (
            b"%%MatrixMarket matrix array integer general\n1 1\n-9223372036854775809\n",
            3,
            Rule::M8,
        ),
        (
            b"%%MatrixMarket matrix coordinate integer skew-symmetric\n2 2 1\n2 2 -1\n",
            3,
            Rule::M9,
        ),
        (
            b"%%MatrixMarket matrix array integer symmetric\n2 2\n1\n2\n%\n",
            6,
            Rule::M10,
        ),
        (
            b"%%MatrixMarket matrix coordinate integer general\n2 2 1\n1 1 1\n0 9 x\n",
            4,
            Rule::M11,
        ),
    ];
    for (text, line, rule) in table {
        let due = Some(MmError::Broken { line, rule });
        assert_eq!(rt; read_matrix(rt.alloc(), text).err(), due);
    }
}

#[test]
fn a_file_that_is_too_long_is_refused_as_a_whole(rt: HostRuntime) -> Result<(), Fail> {
    let mebibyte = vec![in rt.alloc(); b'\n'; 1 << 20]?;
    let mut feed = MatrixFeed::new(rt.alloc());
    for _ in 0..64 {
        feed.feed(mebibyte.as_slice())?;
    }
    assert_eq!(rt; feed.feed(b"x").err(), Some(FeedError::TooLong));
    let (line, rule) = (0, Rule::M12);
    assert_eq!(rt; feed.finish().err(), Some(MmError::Broken { line, rule }));
    Ok(())
}

#[test]
fn errors_say_what_is_wrong(rt: HostRuntime) -> Result<(), Fail> {
    let (line, rule) = (3, Rule::M7);
    let broken = MmError::Broken { line, rule }.to_string(rt.alloc())?;
    assert_eq!(rt; broken.as_str(), "line 3 breaks rule M7");
    let too_long = FeedError::TooLong.to_string(rt.alloc())?;
    assert_eq!(rt; too_long.as_str(), "the file has more than 67108864 bytes");
    Ok(())
}
