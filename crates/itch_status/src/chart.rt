//! A chart of the messages per second, as SVG.
ghost use Rattle.std.specs.Prelude.{◌≡◌, ◌≤◌, ◌++◌, OnOk};
ghost use Rattle.itch_status.specs.ChartTexts.{bar, bar_height, bars, chart_text, greatest};

use crate::line::{push, push_number};
use arrayvec::ArrayVec;
use std::alloc::AllocError;

/// The height of the highest bar.
const HEIGHT: u64 = 100;

/// Appends a chart with one bar per second.
#[tactic(auto, using(crate::proofs::Joining::joining))]
pub(crate) fn extend_chart(text: &mut Vec<u8>, seconds: &[u64]) -> Result<(), AllocError>
    ensures { OnOk result (text.new.items ≡ text.old.items ++ chart_text seconds.now) }
{
    text.extend_from_slice(
        b"<svg viewBox=\"0 0 600 100\" preserveAspectRatio=\"none\" role=\"img\" aria-label=\"Messages per second\">\n",
    )?;
    extend_bars(text, seconds, greatest(seconds))?;
    text.extend_from_slice(b"</svg>\n")?;
    Ok(())
}

fn extend_bars(text: &mut Vec<u8>, seconds: &[u64], most: u64) -> Result<(), AllocError>
    ensures { OnOk result (text.new.items ≡ text.old.items ++ bars most 0 seconds.now) }
{
    let mut left = 0u64;
    for &messages in seconds {
        text.extend_from_slice(bar(left, bar_height(messages, most)).as_slice())?;
        left = left.saturating_add(10);
    }
    Ok(())
}

// Returns a bar of this height, at this distance from the left.
#[tactic(auto, using(crate::proofs::Joining::joining), unfolding(crate::specs::ChartTexts::bar))]
fn bar(left: u64, height: u64) -> ArrayVec<u8, 128>
    requires { height ≤ 100 }
    ensures { result.items ≡ bar left height }
{
    let mut line = ArrayVec::new();
    push(&mut line, b"<rect x=\"");
    push_number(&mut line, left);
    push(&mut line, b"\" y=\"");
    push_number(&mut line, HEIGHT - height);
    push(&mut line, b"\" width=\"9\" height=\"");
    push_number(&mut line, height);
    push(&mut line, b"\"/>\n");
    line
}

// Returns the height of a bar if the highest bar has `most` messages.
fn bar_height(messages: u64, most: u64) -> u64
    ensures height { result ≡ bar_height messages most }
    ensures within { result ≤ 100 }
{
    if most == 0 {
        return 0;
    }
    let height = u128::from(messages) * u128::from(HEIGHT) / u128::from(most);
    u64::try_from(height).unwrap_or(HEIGHT).min(HEIGHT)
}

/// Returns the largest number of a list, or 0.
pub(crate) fn greatest(numbers: &[u64]) -> u64
    ensures { result ≡ greatest numbers.now }
{
    let mut most = 0;
    for &number in numbers {
        most = number.max(most);
    }
    most
}
