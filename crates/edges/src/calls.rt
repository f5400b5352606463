// The calls that the table is about, each made on a new scale or board.
ghost use Rattle.std.specs.Prelude.{◌≡◌, [], ◌∷◌, pos};
ghost use Rattle.weight.specs.Range.{cut, most};
ghost use Rattle.scale.specs.Kinds.{mean};
ghost use Rattle.board.specs.Kinds.{transistor_limit};
ghost use Rattle.board.specs.Outputs.{drive_answer, driven, new_board};
ghost use Rattle.edges.specs.Edges.{example_settings, gross_answer};

use board::kind::Board;
use board::transistor::TransistorBoard;
use scale::head::Head;
use scale::kind::Scale;
use scale::reading::Sample;
use scale::settings::Settings;
use scale::smoothing::Smoothing;
use weighing::weigh_by_converter;
use weight::fault::Fault;

// The gross weight of a code on a converter with span 40,000, capacity 20,000 and division 5.
pub fn gross_of_code(zero: i32, code: i32) -> Result<i32, Fault>
    ensures { result ≡ gross_answer (example_settings zero (pos 0)) code }
{
    let settings = Settings {
        zero,
        span: 40_000,
        capacity: 20_000,
        division: 5,
        width: 0,
    };
    let reading = weigh_by_converter(
        settings,
        &[Sample {
            value: code,
            steady: false,
        }],
    )?;
    Ok(reading.gross)
}

// What a smoothing layer over a head shows of two samples.
pub fn smoothed_pair(a: i32, b: i32) -> i32
    ensures { result ≡ mean (cut most b ∷ cut most a ∷ []) }
{
    let mut layer = Smoothing::new(Head::new());
    layer.sample(Sample {
        value: a,
        steady: true,
    });
    layer.sample(Sample {
        value: b,
        steady: true,
    });
    layer.gross()
}

// What driving a byte on a new transistor board answers, what stands after it, and whether the board is tripped.
pub fn driven_once(byte: u8) -> (Result<(), Fault>, u8, bool)
    ensures answer { result.0 ≡ drive_answer (new_board transistor_limit) byte }
    ensures standing { result.1 ≡ (driven (new_board transistor_limit) byte).standing }
    ensures tripped { result.2 ≡ (driven (new_board transistor_limit) byte).tripped }
{
    let mut board = TransistorBoard::new();
    let answer = board.drive(byte);
    (answer, board.standing(), board.tripped())
}
