use job_text::{JobError, a_text_has_one_form, bytes_have_one_meaning, jobs_are_shallow, read_job};
use std::test::Fail;

/// Job texts with a `%` and a line end between them, each after a line that has the number of its forms, and then the number
/// of its broken line, or 0 where there is none.
const CASES: &str = "0 0
%
0 0

\r
 \t 
# extent
%
1 0
extent n 3%
1 0
extent n 3\r%
2 0
extent n 003 # three\r
\textent  m\t18446744073709551615
%
0 1
extent n 18446744073709551616
%
1 3

extent n 3
extent n
extent m 3
%
0 1
extent n 3\r\r
%
0 1
extent n -3
%
0 1
Extent n 3
%
1 0
extent a23456789_123456789_123456789_12 3
%
0 1
extent a23456789_123456789_123456789_123 3
%
0 1
extent 3n 3
%
0 1
extent hashed 3
%
1 0
extent hashes 3
%
3 0
place p n block
place q n cyclic 4
place r n listed owners.mtx
%
0 1
place p n cyclic
%
0 1
place p n block 4
%
1 0
print y
%
0 1
print y z
%
0 1
repeat 3
%
3 0
format v row dense
format w row packed
format x row list
%
0 1
format v col dense
%
2 0
format m row dense > col dense
format t col packed > row packed
%
0 1
format m row dense > row packed
%
0 1
format m row packed > col dense
%
0 1
format m row dense> col packed
%
2 0
format l row col list
format j jagged
%
0 1
format l col row list
%
1 0
format d diagonal -3 -0 2
%
0 1
format d diagonal
%
0 1
format d diagonal 1 1
%
0 1
format d diagonal -0 0
%
0 1
format d diagonal --1
%
1 0
format p permute rows.mtx row dense > col packed
%
0 1
format p permute rows.mtx col dense > row packed
%
2 0
array a n,m f row by p from a.mtx
array x n v row by p zero
%
0 1
array a n,m,k f row by p zero
%
0 1
array a n, m f row by p zero
%
0 1
array a n f dense by p zero
%
0 1
array a n f row by p from
%
0 1
array a n f row on p zero
%
1 0
doany i 0..n : y[i] += a[i,i]*x[i]
%
1 0
doany i 0..2j 0..3 : y[i] = 1
%
1 0
doany i 0 .. n where i<=3,2*i!=n : y [ i ] = - 1 + ( 2 * x[i] )
%
0 1
doany i 0. .n : y[i] = 1
%
0 1
doany i 0..n where i<=3, : y[i] = 1
%
0 1
doany : y[i] = 1
%
0 1
doany i 0..n : y[i] = 1 2
%
0 1
doany i 0..n : y[i] + = 1
%
0 1
doany i 0..n on x[i] : y[i] = 1
%
0 1
doany row 0..n : y[row] = 1
%
1 0
doany i 0..1+1+1+1+1+1+1+1 : y[i] = 1
%
0 1
doany i 0..1+1+1+1+1+1+1+1+1 : y[i] = 1
%
1 0
doany i -4294967295..4294967295*n : y[i] = 18446744073709551615
%
0 1
doany i 0..4294967296 : y[i] = 1
%
0 1
doany i 0..n : y[i] = 18446744073709551616
%
1 0
doany i 0..n : y[i] = ((((((((((((((((1))))))))))))))))
%
0 1
doany i 0..n : y[i] = (((((((((((((((((1)))))))))))))))))
%
0 1
doany i 0..n : y[i,i,i] = 1
%
0 1
doany i 0..n : y[] = 1
%
0 1
doanyi 0..n : y[i] = 1
%
0 1
doany i 0..n : y[i] = a; print y
";

#[test]
fn texts_have_the_stated_forms(rt: HostRuntime) -> Result<(), Fail> {
    let mut tried: u32 = 0;
    for case in CASES.split("%\n") {
        if let Some((expected, text)) = case.split_once('\n') {
            let job = read_job(rt.alloc(), text.as_bytes())?;
            let read = format!(in rt.alloc(); "{} {}", job.lines.len(), job.broken.unwrap_or(0))?;
            assert_eq!(rt; read.as_str(), expected, "at {text}");
            tried = tried.saturating_add(1);
        }
    }
    assert_eq!(rt; tried, 63);
    Ok(())
}

/// One line of each kind, each followed by its form. A name shows as its bytes: `a` is 97.
const PARTS: &str = "extent n 7
Extent { name: Text { bytes: [110] }, size: 7 }
%
place p n cyclic 2
Place { name: Text { bytes: [112] }, extent: Text { bytes: [110] }, kind: Cyclic(2) }
%
format d diagonal -1 2
Format { name: Text { bytes: [100] }, shape: Diagonal(Items { items: [-1, 2] }) }
%
array a n,m f col by p from z
Array { name: Text { bytes: [97] }, extents: Items { items: [Text { bytes: [110] }, Text { bytes: [109] }] }, format: Text { bytes: [102] }, axis: Col, place: Text { bytes: [112] }, file: Some(Text { bytes: [122] }) }
%
doany i 0..n where 2*i<n : y[i] = -3*x[n-i]
Nest(RawNest { vars: Items { items: [RawVar { name: Text { bytes: [105] }, lo: RawSum { items: Items { items: [RawItem { minus: false, number: 0, name: None }] } }, hi: RawSum { items: Items { items: [RawItem { minus: false, number: 1, name: Some(Text { bytes: [110] }) }] } } }] }, guards: Items { items: [RawGuard { left: RawSum { items: Items { items: [RawItem { minus: false, number: 2, name: Some(Text { bytes: [105] }) }] } }, rel: Lt, right: RawSum { items: Items { items: [RawItem { minus: false, number: 1, name: Some(Text { bytes: [110] }) }] } } }] }, target: RawRef { name: Text { bytes: [121] }, subs: Items { items: [RawSum { items: Items { items: [RawItem { minus: false, number: 1, name: Some(Text { bytes: [105] }) }] } }] } }, replace: true, body: RawExpr { sums: Items { items: [RawProduct { minus: true, factors: Items { items: [Num(3), Read(RawRef { name: Text { bytes: [120] }, subs: Items { items: [RawSum { items: Items { items: [RawItem { minus: false, number: 1, name: Some(Text { bytes: [110] }) }, RawItem { minus: true, number: 1, name: Some(Text { bytes: [105] }) }] } }] } })] } }] } } })
%
print y
Print { name: Text { bytes: [121] } }
";

#[test]
fn a_form_has_the_parts_of_its_line(rt: HostRuntime) -> Result<(), Fail> {
    let mut tried: u32 = 0;
    for case in PARTS.split("%\n") {
        if let Some((text, expected)) = case.split_once('\n') {
            let job = read_job(rt.alloc(), text.as_bytes())?;
            if let Some(line) = job.lines.get(0) {
                let read = format!(in rt.alloc(); "{:?}\n", line.form)?;
                assert_eq!(rt; read.as_str(), expected);
                tried = tried.saturating_add(1);
            }
        }
    }
    assert_eq!(rt; tried, 6);
    Ok(())
}

#[test]
fn a_job_above_its_limit_is_too_long(rt: HostRuntime) -> Result<(), Fail> {
    let mut text = vec![in rt.alloc(); b' '; 1_048_576]?;
    let most = read_job(rt.alloc(), text.as_slice())?;
    assert_eq!(rt; most.lines.len(), 0);
    text.push(b' ')?;
    assert!(rt;
        matches!(
            read_job(rt.alloc(), text.as_slice()),
            Err(JobError::TooLong)
        )
    );
    Ok(())
}

#[test]
fn the_laws_are_there() {
    a_text_has_one_form();
    bytes_have_one_meaning();
    jobs_are_shallow();
}

#[test]
fn each_error_has_its_line(rt: HostRuntime) -> Result<(), Fail> {
    assert_eq!(rt;
        JobError::TooLong.to_string(rt.alloc())?.as_str(),
        "the job has more than 1048576 bytes"
    );
    assert_eq!(rt;
        JobError::NoMemory.to_string(rt.alloc())?.as_str(),
        "out of memory"
    );
    Ok(())
}
