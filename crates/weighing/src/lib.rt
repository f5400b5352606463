// Whole weighings: what a scale shows after any series of samples.
#![tactic(auto)]

ghost use Rattle.std.specs.Prelude.{◌≡◌, [], reverse};
ghost use Rattle.scale.specs.Windows.{last_weights};
ghost use Rattle.weighing.specs.Traces.{Weighed, Shown, Smoothed, converter_answer, latest, head_trace, converter_trace, smoothed_trace};
ghost use Rattle.weighing.specs.Settling.{SettledWhenAlike};

use scale::converter::Converter;
use scale::head::Head;
use scale::kind::Scale;
use scale::reading::{Reading, Sample};
use scale::settings::Settings;
use scale::smoothing::Smoothing;
use weight::fault::Fault;

// Hands samples to a scale, oldest first.
pub fn weigh<S: Scale>(scale: &mut S, samples: &[Sample])
    ensures { Weighed S.shows S.takes scale.old samples.now scale.new }
{
    hand_over(scale, samples);
}

// What any scale shows after these samples.
pub fn weigh_by<S: Scale + Drop>(mut scale: S, samples: &[Sample]) -> Reading
    ensures { Shown S.shows S.takes scale samples.now result }
{
    weigh(&mut scale, samples);
    scale.read()
}

// What a new head shows after these samples.
#[tactic(auto, using(crate::proofs::Traces::head_shown))]
pub fn weigh_by_head(samples: &[Sample]) -> Reading
    ensures { result ≡ latest (head_trace (reverse samples.now)) }
{
    weigh_by(Head::new(), samples)
}

// What a new converter of these numbers shows after these samples.
pub fn weigh_by_converter(settings: Settings, samples: &[Sample]) -> Result<Reading, Fault>
    ensures { result ≡ converter_answer settings (converter_trace settings (reverse samples.now)) }
{
    let converter = Converter::new(settings)?;
    Ok(converter_shows(converter, samples))
}

// What a new smoothing layer over any scale shows after these samples.
pub fn weigh_smoothed<S: Scale + Drop>(below: S, samples: &[Sample]) -> Reading
    ensures { Smoothed S.shows S.takes below samples.now result }
{
    layer_shows(Smoothing::new(below), samples)
}

// What a smoothing layer over a converter shows after these samples.
pub fn weigh_by_smoothed_converter(settings: Settings, samples: &[Sample]) -> Result<Reading, Fault>
    ensures { result ≡ converter_answer settings (smoothed_trace (converter_trace settings (reverse samples.now))) }
{
    let converter = Converter::new(settings)?;
    Ok(smoothed_converter_shows(converter, samples))
}

// What two smoothing layers over a head show after these samples.
pub fn weigh_by_twice_smoothed_head(samples: &[Sample]) -> Reading
    ensures { result ≡ latest (smoothed_trace (smoothed_trace (head_trace (reverse samples.now)))) }
{
    smoothed_layer_shows(Smoothing::new(Head::new()), samples)
}

// A converter is stable exactly when eight samples have come and every two of the last eight weights differ by at most its width.
pub fn settled_when_alike()
    ensures { SettledWhenAlike }
{}

// The functions below have proof files, and so stand apart from the calls above: a bug planted there is refused for a
// fact, and not for a proof text that no longer fits. (A lemma named on the call is enough for the head alone.) That no
// sample has come is asked here, of new scales, and is no fact of a type.

fn hand_over<S: Scale>(scale: &mut S, samples: &[Sample])
    ensures { Weighed S.shows S.takes scale.old samples.now scale.new }
{
    for sample in samples {
        scale.sample(*sample);
    }
}

fn converter_shows(converter: Converter, samples: &[Sample]) -> Reading
    requires { last_weights converter.window ≡ [] }
    ensures { result ≡ latest (converter_trace converter.settings (reverse samples.now)) }
{
    weigh_by(converter, samples)
}

fn layer_shows<S: Scale + Drop>(layer: Smoothing<S>, samples: &[Sample]) -> Reading
    requires { last_weights layer.window ≡ [] }
    ensures { (b : S) → layer.below ≡ b → Smoothed S.shows S.takes b samples.now result }
{
    weigh_by(layer, samples)
}

fn smoothed_converter_shows(converter: Converter, samples: &[Sample]) -> Reading
    requires { last_weights converter.window ≡ [] }
    ensures { result ≡ latest (smoothed_trace (converter_trace converter.settings (reverse samples.now))) }
{
    weigh_smoothed(converter, samples)
}

fn smoothed_layer_shows(layer: Smoothing<Head>, samples: &[Sample]) -> Reading
    requires { last_weights layer.window ≡ [] }
    ensures { result ≡ latest (smoothed_trace (smoothed_trace (head_trace (reverse samples.now)))) }
{
    weigh_smoothed(layer, samples)
}
