use bern_base::Rule;
use job_accept::take_job;
use job_rules::CheckError;
use std::alloc::Global;
use std::test::Fail;

/// Twelve lines that break no rule.
const HEAD: &[u8] =
    b"extent n 3\nextent m 4\nplace p n block\nplace q m cyclic 2\nformat csr row dense > col packed\nformat vec row dense\nformat thin row packed\narray A n,n csr row by p from a.mtx\narray X n vec row by p from x.mtx\narray Y n vec row by p zero\narray S n thin row by p from s.mtx\nprint X\n";

/// The rule that a thirteenth line breaks, if it breaks one there.
fn broken_by(alloc: Global, line: &[u8]) -> Result<Option<Rule>, Fail> {
    let mut text = Vec::from_slice(alloc, HEAD)?;
    text.extend_from_slice(line)?;
    match take_job(alloc, text.as_slice()) {
        Ok(_) => Ok(None),
        Err(CheckError::Refused { line: 13, rule }) => Ok(Some(rule)),
        Err(other) => Err(Fail::from(other)),
    }
}

/// The table of rules: each rule alone, and where two meet on one line the first one.
#[test]
fn each_line_breaks_its_rule(rt: HostRuntime) -> Result<(), Fail> {
    let cases: [(&'static [u8], Rule); 35] = [
        (b"extent k", Rule::J2),
        (b"extent n 5", Rule::J3),
        (b"doany n 0..k : Y[0] += 1", Rule::J3),
        (b"print X", Rule::J3),
        (b"print W", Rule::J4),
        (b"array B k vec row by A zero", Rule::J4),
        (b"print n", Rule::J5),
        (b"doany i 0..n j 0..i : Y[i] += 1", Rule::J5),
        (b"array B n,n vec row by csr zero", Rule::J5),
        (b"doany i 0..A i 0..n : Y[i] += 1", Rule::J5),
        (b"array B n,n vec row by p zero", Rule::J6),
        (b"array B n vec col by p zero", Rule::J6),
        (b"array B m,m vec row by p zero", Rule::J6),
        (b"array B m vec row by p zero", Rule::J7),
        (b"array B n,m csr col by p zero", Rule::J7),
        (b"doany i 0..n i 0..n : Y[i] += A[i]", Rule::J8),
        (b"doany i 0..n : Y[i] += A[i+5]", Rule::J9),
        (b"doany i 0..n : S[i+1] += 1", Rule::J10),
        (b"doany i 0..n where i<1 : Y[i] += X[i+1]", Rule::J10),
        (b"doany i 0..n : Y[i] += X[1-i]", Rule::J10),
        (b"print A", Rule::J11),
        (b"doany i 0..n : S[i] += S[0]", Rule::J11),
        (b"doany i 0..n : Y[i] += Y[0]", Rule::J12),
        (b"doany i 0..n j 0..n : Y[i] = Y[i]", Rule::J12),
        (b"doany i 0..n j 0..n : Y[i] = A[j,i]", Rule::J13),
        (b"doany i 0..n j 0..2 : Y[i-j+1] = 1", Rule::J10),
        (b"doany i 0..2 j 0..2 : Y[i-j+1] = 1", Rule::J13),
        (b"doany i 0..n j 0..n : Y[i] += A[j,i]", Rule::J14),
        (b"doany i 0..0 j 0..n : Y[i] += A[j,2000000*i]", Rule::J14),
        (b"extent z 0", Rule::J15),
        (b"extent z 4194305", Rule::J15),
        (b"place r n cyclic 4194305", Rule::J15),
        (b"format d diagonal 4194304", Rule::J15),
        (
            b"doany a 0..1 b 0..1 c 0..1 d 0..1 e 0..1 : Y[a] += 1",
            Rule::J15,
        ),
        (
            b"doany i 0..n : Y[i] += (1+1)*(1+1)*(1+1)*(1+1)*(1+1)",
            Rule::J15,
        ),
    ];
    for (line, rule) in cases {
        assert_eq!(&rt; broken_by(rt.alloc(), line)?, Some(rule));
    }
    Ok(())
}

#[test]
fn lines_at_the_edge_of_a_rule_are_accepted(rt: HostRuntime) -> Result<(), Fail> {
    let lines: [&'static [u8]; 11] = [
        b"extent k 4194304",
        b"format d diagonal -4194303 4194303",
        b"doany i 0..n : Y[i] += X[i-i]",
        b"doany i 0..2 : Y[2*i] += X[2-i]",
        b"doany i 0..n : Y[2-i] = X[i]",
        b"doany i 0..0 : Y[i+9] += 1",
        b"doany i 0..n : Y[i] = Y[i]",
        b"doany i 0..n j 2..3 : Y[i+j-2] = X[j]",
        b"doany i 0..n : Y[i+2000000*i-2000000*i] += S[i]",
        b"doany i 0..n : Y[i] += (1+1)*(1+1)*(1+1)*(1+1)",
        b"doany a 0..1 b 0..1 c 0..1 d 0..1 : Y[a] += 1",
    ];
    for line in lines {
        assert_eq!(&rt; broken_by(rt.alloc(), line)?, None);
    }
    Ok(())
}
