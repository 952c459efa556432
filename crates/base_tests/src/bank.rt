use smallvec::SmallVec;
use sp_affine::Form;
use sp_bank::{
    CertError, Scheme, apart, are_groups, bank_of, certify, check_certificate, is_group, offset_of,
    search, separates,
};
use std::alloc::Global;
use std::process::Abort;
use std::test::Fail;

fn number(rt: &impl Abort, word: Option<&str>) -> u32 {
    let word = word.expect(rt, "a word");
    word.parse::<u32>().ok().expect(rt, "a number")
}

fn numbers(rt: &impl Abort, alloc: Global, text: &str) -> Vec<u32> {
    let mut found = Vec::new(alloc);
    for word in text.split_whitespace() {
        found.push(number(rt, Some(word))).ok().expect(rt, "memory");
    }
    found
}

// One form for each constant, all with one linear part.
fn group_from(rt: &impl Abort, alloc: Global, text: &str) -> Vec<Form> {
    let mut group = Vec::new(alloc);
    for word in text.split_whitespace() {
        let form = Form {
            coefs: Vec::from_slice(alloc, &[1]).ok().expect(rt, "memory"),
            constant: word.parse::<i64>().ok().expect(rt, "a constant"),
            symbol: None,
        };
        group.push(form).ok().expect(rt, "memory");
    }
    group
}

fn groups_from(rt: &impl Abort, alloc: Global, text: &str) -> Vec<Vec<Form>> {
    let mut groups = Vec::new(alloc);
    for part in text.split(':') {
        groups
            .push(group_from(rt, alloc, part))
            .ok()
            .expect(rt, "memory");
    }
    groups
}

fn scheme(alloc: Global, banks: u32, block: u32, alpha: &[u32], hinge: u8) -> Option<Scheme> {
    let alpha = SmallVec::from_slice(alloc, alpha).ok()?;
    Scheme::new(banks, block, alpha, hinge)
}

// Banks, block, hinge and weights of a scheme, and nothing of none.
fn parts(rt: &impl Abort, alloc: Global, found: &Option<Scheme>) -> Vec<u32> {
    let mut parts = Vec::new(alloc);
    if let Some(s) = found {
        for part in [s.banks, s.block, u32::from(s.hinge)] {
            parts.push(part).ok().expect(rt, "memory");
        }
        parts
            .extend_from_slice(s.alpha.as_slice())
            .ok()
            .expect(rt, "memory");
    }
    parts
}

#[test]
fn one_bank_serves_a_memory_without_groups(rt: HostRuntime) {
    let found = search(rt.alloc(), 2, &[]);
    let parts = parts(&rt, rt.alloc(), &found);
    assert_eq!(rt; parts.as_slice(), [1, 1, 0, 0, 0].as_slice());
}

// Rank, groups, and the banks, block, hinge and weights of the first scheme, if there is one, which
// another program found by trying every scheme and every number that the accesses may share.
const SEARCHES: &str = "\
1 : : = 1 1 0 0\n\
1 : 5 = 1 1 0 0\n\
1 : 3 3 3 = 1 1 0 0\n\
1 : 0 1 2 3 4 5 6 7 8 = 9 1 0 1\n\
1 : 0 1 2 3 4 5 6 7 8 9 10 11 12 13 14 15 16 = 17 1 0 1\n\
1 : 0 3 4 = 5 1 0 1\n\
1 : 0 1 2 3 = 4 1 0 1\n\
1 : -4 -3 -2 -1 : 0 1 2 3 = 4 1 0 1\n\
2 : 0 0 0 1 0 2 0 3 : 0 0 1 0 2 0 3 0 = 4 1 0 1 1\n\
1 : 0 2 = 2 2 0 1\n\
1 : 0 2 4 = 3 1 0 1\n\
1 : 0 1 : 0 2 = 3 1 0 1\n\
1 : 0 4 = 2 4 0 1\n\
1 : 0 2 4 6 = 4 2 0 1\n\
1 : -1 0 1 = 3 1 0 1\n\
1 : 0 1 2 3 : 0 4 = 5 1 0 1\n\
1 : 0 1 2 3 4 5 6 7 8 9 10 11 12 13 14 15 16 17 18 19 20 21 22 23 24 25 26 27 28 29 30 31 32 =\n\
1 : 0 6 10 15 = 5 4 0 1\n\
1 : 0 -7 12 = 4 4 0 3\n\
1 : -9223372036854775808 9223372036854775807 = 2 1 0 1\n\
2 : 0 0 0 1 = 2 1 1 0 1\n\
2 : 0 0 1 0 = 2 1 0 1 0\n\
2 : 0 0 0 1 1 0 1 1 = 4 1 0 1 2\n\
2 : 0 0 0 1 0 2 1 0 1 1 1 2 2 0 2 1 2 2 = 9 1 0 1 3\n\
2 : -1 0 1 0 0 -1 0 1 = 4 2 0 1 3\n\
2 : 0 0 1 2 2 1 = 3 1 1 0 1\n\
2 : 0 0 0 1 : 0 0 1 0 = 2 1 0 1 1\n\
2 : 0 0 2 2 4 4 = 3 1 1 0 1\n\
3 : 0 0 0 0 0 1 0 1 0 1 0 0 = 4 1 0 1 2 3\n\
3 : 0 0 0 1 1 1 = 2 1 2 0 0 1\n\
3 : 0 0 0 0 0 1 0 1 0 0 1 1 1 0 0 1 0 1 1 1 0 1 1 1 = 8 1 0 1 2 4\n\
1 : 7 7 8 8 9 9 = 3 1 0 1\n\
1 : 0 1 2 3 4 5 6 7 8 9 10 11 12 13 14 15 16 17 18 19 20 21 22 23 24 25 26 27 28 29 30 31 = 32 1 0 1\n\
1 : 0 1 : 0 2 4 6 8 10 12 14 16 18 20 22 24 26 28 30 32 34 36 38 40 42 44 46 48 50 52 54 56 58 60 62 = 32 2 0 3\n\
1 : 0 577614211574400 =\n\
2 : 0 0 0 0 1 1 1 1 0 5 = 3 1 1 0 1\n\
1 : 0 1 2 : 0 1 2 3 4 5 6 = 7 1 0 1\n\
";

#[test]
fn first_schemes(rt: HostRuntime) {
    for line in SEARCHES.lines() {
        let (question, want) = line.split_once('=').expect(&rt, "an answer");
        let (rank, groups) = question.split_once(':').expect(&rt, "groups");
        let rank = rank.trim().parse::<u8>().ok().expect(&rt, "a rank");
        let groups = groups_from(&rt, rt.alloc(), groups);
        assert!(rt; 1 <= rank && rank <= 3);
        assert!(rt; are_groups(rank, &groups), "at {line}");
        let found = search(rt.alloc(), rank, &groups);
        let parts = parts(&rt, rt.alloc(), &found);
        let want = numbers(&rt, rt.alloc(), want);
        assert_eq!(rt; parts.as_slice(), want.as_slice(), "at {line}");
    }
}

// Two groups of sixteen accesses in three dimensions. Many schemes separate the first group, and
// of the second all but the last access, which no scheme parts from the one before it.
const REFUSED: &str = "\
0 0 0 2 2 0 4 4 0 6 6 0 8 8 0 10 10 0 12 12 0 14 14 0 16 16 0 18 18 0 20 20 0 22 22 \
0 24 24 0 26 26 0 28 28 0 30 30 0 : 0 0 0 2 2 0 4 4 0 6 6 0 8 8 0 10 10 0 12 12 0 14 14 \
0 16 16 0 18 18 0 20 20 0 22 22 0 24 24 0 26 26 0 28 28 0 577614211574428 \
577614211574428 577614211574400";

#[test]
fn a_long_search_refuses(rt: HostRuntime) {
    let groups = groups_from(&rt, rt.alloc(), REFUSED);
    assert!(rt; are_groups(3, &groups));
    assert!(rt; search(rt.alloc(), 3, &groups).is_none());
}

#[test]
fn a_certificate_passes_and_a_clash_names_the_first_pair(rt: HostRuntime) -> Result<(), Fail> {
    let nine = scheme(rt.alloc(), 9, 1, &[1], 0).ok_or("no scheme")?;
    assert_eq!(rt; nine.alpha.len(), 1);
    let row = group_from(&rt, rt.alloc(), "0 1 2 3 4 5 6 7 8");
    assert!(rt; is_group(1, &row));
    let certificate = certify(rt.alloc(), &nine, 7, &row)
        .ok()
        .ok_or("no certificate")?;
    assert_eq!(rt; certificate.group, 7);
    assert_eq!(rt;
        certificate.differences.as_slice(),
        [0, 1, 2, 3, 4, 5, 6, 7, 8].as_slice()
    );
    assert!(rt; check_certificate(&certificate, &row));
    let clash = group_from(&rt, rt.alloc(), "0 9");
    assert!(rt; is_group(1, &clash));
    assert_eq!(rt;
        certify(rt.alloc(), &nine, 0, &clash).err(),
        Some(CertError::Pair {
            first: 0,
            second: 1
        })
    );
    Ok(())
}

// Banks, block and hinge, whether they make a scheme, and the weights.
const SCHEMES: &str = "\
1 1 0 yes : 0\n\
32 4 0 yes : 31\n\
4 2 1 yes : 2 3\n\
5 1 2 yes : 0 0 4\n\
0 1 0 no : 0\n\
33 1 0 no : 1\n\
4 3 0 no : 1\n\
4 0 0 no : 1\n\
4 1 0 no : 4\n\
4 1 0 no : 2\n\
2 1 0 no : 0\n\
4 1 0 no :\n\
4 1 0 no : 1 1 1 1\n\
4 1 1 no : 1\n\
";

#[test]
fn only_numbers_of_the_space_make_a_scheme(rt: HostRuntime) {
    for line in SCHEMES.lines() {
        let (sizes, weights) = line.split_once(':').expect(&rt, "weights");
        let mut words = sizes.split_whitespace();
        let banks = number(&rt, words.next());
        let block = number(&rt, words.next());
        let hinge = number(&rt, words.next());
        assert!(rt; hinge < 256);
        let weights = numbers(&rt, rt.alloc(), weights);
        let made = scheme(rt.alloc(), banks, block, &weights, hinge as u8);
        assert_eq!(rt; made.is_some(), words.next() == Some("yes"), "at {line}");
    }
}

#[test]
fn sixteen_elements_in_four_banks(rt: HostRuntime) -> Result<(), Fail> {
    let four = scheme(rt.alloc(), 4, 1, &[1], 0).ok_or("no scheme")?;
    assert_eq!(rt; four.alpha.len(), 1);
    for x in 0..16u32 {
        assert_eq!(rt; bank_of(&four, &[16], &[x]), x % 4);
        assert_eq!(rt; offset_of(&four, &[16], &[x]), u64::from(x / 4));
    }
    Ok(())
}

#[test]
fn accesses_that_are_apart_at_0_alone_are_not_separated(rt: HostRuntime) -> Result<(), Fail> {
    let three = scheme(rt.alloc(), 3, 2, &[1], 0).ok_or("no scheme")?;
    assert_eq!(rt; three.alpha.len(), 1);
    let group = group_from(&rt, rt.alloc(), "0 3 4");
    assert!(rt; is_group(1, &group));
    assert!(rt; !separates(&three, &group));
    let second = group_from(&rt, rt.alloc(), "3");
    let third = group_from(&rt, rt.alloc(), "4");
    assert_eq!(rt; (second.len(), third.len()), (1, 1));
    assert!(rt; !apart(&three, &second, &third));
    assert!(rt; apart(&three, &second, &second));
    Ok(())
}
