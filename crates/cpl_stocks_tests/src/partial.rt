// Partial sums and their words.
use cpl_stocks::{PARTIAL_WORDS, Partial};
use std::test::Fail;

// Numbers with their high and their low words, as two's complement has them.
const WORDS: [(i128, i64, i64); 11] = [
    (0, 0, 0),
    (1, 0, 1),
    (-1, -1, -1),
    (9_223_372_036_854_775_807, 0, i64::MAX),
    (9_223_372_036_854_775_808, 0, i64::MIN),
    (-9_223_372_036_854_775_808, -1, i64::MIN),
    (-9_223_372_036_854_775_809, -1, i64::MAX),
    (18_446_744_073_709_551_616, 1, 0),
    (1_267_650_600_228_229_401_496_703_205_376, 68_719_476_736, 0),
    (i128::MAX, i64::MAX, -1),
    (i128::MIN, i64::MIN, 0),
];

#[test]
fn words_there_and_back(rt: HostRuntime) -> Result<(), Fail> {
    let mut partial = Partial::zero();
    let mut wanted = [0i64; PARTIAL_WORDS];
    for (i, (number, high, low)) in WORDS.iter().enumerate() {
        // Each stands among the exchanges from row 1 on, in the third column.
        partial.exchanges[i + 1][2] = *number;
        let place = 2 * (24 + 4 * (i + 1) + 2);
        wanted[place] = *high;
        wanted[place + 1] = *low;
    }
    // The first and the last of the stocks, and the last of all.
    partial.stocks[0][0] = 5;
    wanted[1] = 5;
    partial.stocks[2][7] = -6;
    wanted[46] = -1;
    wanted[47] = -6;
    partial.exchanges[14][3] = i128::MIN;
    wanted[166] = i64::MIN;

    let mut words = [7i64; PARTIAL_WORDS];
    partial.write(&mut words);
    assert_eq!(rt; words, wanted);
    let read = Partial::read(&words);
    assert_eq!(rt; read, partial);
    Ok(())
}

#[test]
fn sums_of_two(rt: HostRuntime) -> Result<(), Fail> {
    let mut sum = Partial::zero();
    sum.stocks[1][3] = i128::MAX - 4;
    sum.exchanges[14][3] = -9;
    let mut other = Partial::zero();
    other.stocks[1][3] = 4;
    other.stocks[2][7] = -1;
    other.exchanges[0][0] = 3;
    other.exchanges[14][3] = 12;
    sum.add(&other);

    let mut wanted = Partial::zero();
    wanted.stocks[1][3] = i128::MAX;
    wanted.stocks[2][7] = -1;
    wanted.exchanges[0][0] = 3;
    wanted.exchanges[14][3] = 3;
    assert_eq!(rt; sum, wanted);
    Ok(())
}
