// Small numbers.
use super::{asked, calls};
use std::io;
use test_choice::{Lent, Question};

fn tell_dozen(rt: &impl Print, n: usize, lent: &mut Lent<'_>) -> io::Result<()> {
    for i in 0..12 {
        let question = Question {
            n: n as u64,
            limits: asked::small_limits(i),
            prices: asked::prices_of(n % 6 + i),
        };
        let _ = calls::tell_best(rt, question, lent)?;
    }
    Ok(())
}

pub fn tell_small(rt: &impl Print, lent: &mut Lent<'_>) -> io::Result<()> {
    for n in 0..401 {
        tell_dozen(rt, n, lent)?;
    }
    Ok(())
}
