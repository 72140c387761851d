//! Conversions from and to plain values, and the output of `{}`.
use crate::equal::{Host, TestResult, same, same_words};
use itch_codec::{Alpha, AlphaFault, OutOfRange, Seq, Side, Stamp, UnknownSide};

fn seq(rt: &impl Host, value: u64) -> Seq {
    Seq::try_from(value).expect(rt, "a sequence number")
}

#[test]
fn numbers_are_converted(rt: HostRuntime) -> TestResult {
    same(&rt, Seq::try_from(0), Err(OutOfRange));
    let most = 10_000_000_000_000_000_000;
    same(&rt, u64::from(seq(&rt, most)), most);
    same(&rt, Seq::try_from(most + 1), Err(OutOfRange));
    same(&rt, Stamp::try_from(1 << 48), Err(OutOfRange));
    let last = Stamp::try_from((1 << 48) - 1).expect(&rt, "a timestamp");
    same(&rt, u64::from(last), 281_474_976_710_655);
    Ok(())
}

#[test]
fn sides_are_converted(rt: HostRuntime) -> TestResult {
    same(&rt, Side::try_from(b'B'), Ok(Side::Buy));
    same(&rt, Side::try_from(b'S'), Ok(Side::Sell));
    same(&rt, Side::try_from(b'b'), Err(UnknownSide(0x62)));
    same(&rt, u8::from(Side::Buy), b'B');
    same(&rt, u8::from(Side::Sell), b'S');
    Ok(())
}

#[test]
fn texts_are_converted(rt: HostRuntime) -> TestResult {
    let stock = Alpha::<8>::try_from("AAPL").expect(&rt, "a text that fits");
    same(&rt, Alpha::<8>::try_from(*b"AAPL    "), Ok(stock));
    same(&rt, Alpha::<4>::try_from("GOOGL"), Err(AlphaFault::TooLong));
    let bad = Err(AlphaFault::NotPrintable { at: 1 });
    same(&rt, Alpha::<2>::try_from([b'A', 0x7f]), bad);
    Ok(())
}

#[test]
fn values_are_shown(rt: HostRuntime) -> TestResult {
    let stock = Alpha::<8>::try_from("AAPL").expect(&rt, "a text that fits");
    let line = format!(in rt.alloc(); "{stock}|{stock:>6}|")?;
    same(&rt, line.as_str(), "AAPL|  AAPL|");
    let stamp = Stamp::try_from(34_200_000_000_000).expect(&rt, "a timestamp");
    let line = format!(in rt.alloc(); "{} {stamp}", Side::Buy)?;
    same(&rt, line.as_str(), "B 34200000000000");
    let line = format!(in rt.alloc(); "{:4}|", seq(&rt, 7))?;
    same(&rt, line.as_str(), "   7|");
    same_words(&rt, &UnknownSide(0x62), "0x62 is no side")?;
    same_words(&rt, &OutOfRange, "out of range")?;
    Ok(())
}
