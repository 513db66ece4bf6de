// The settings line.
ghost use Rattle.std.specs.Prelude.{◌≡◌, ◌+◌, ◌^◌, ◌≤◌, ◌<◌, length};
ghost use Rattle.system_file.specs.Steps.{head_in, head_at};

use settings::Settings;
use text::lines;

// What the settings line says, with the bytes of the file where its block starts and ends.
#[derive(Clone, Copy)]
pub(crate) struct Head {
    pub settings: Settings,
    pub start: usize,
    pub end: usize,
}

// The settings in the line at `at`.
pub(crate) fn settings_at(input: &[u8], at: usize) -> Option<Head>
    requires { at ≤ length input.now }
    ensures { result ≡ head_at input.now at }
{
    let l = lines::line_at(input, at);
    if input.len() <= at + l.len() {
        return None;
    }
    settings_line(l, at)
}

// The settings in a line that stands at `at`.
fn settings_line(l: &[u8], at: usize) -> Option<Head>
    requires { at + length l.now < 2 ^ 64 }
    ensures { result ≡ head_in l.now at }
{
    // n, t, k and the sender, each in its range
    let numbers = lines::read_numbers(l, &[4, 16, 1, 5, 1, 32, 0, 16])?;
    let [n, t, k, sender] = numbers.values;
    let settings = Settings { n, t, k, sender };
    // 3t + 1 is at most n, and so is the sender: controller 1 could be started with them
    let Ok(()) = settings::state_refusal(settings, 1) else {
        return None;
    };
    let block = lines::tail(l, numbers.end);
    if !text::is_bytes(block, wire::block_length(n, t, k)) {
        return None;
    }
    Some(Head {
        settings,
        start: at + numbers.end,
        end: at + l.len(),
    })
}
