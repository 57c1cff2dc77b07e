// A build: at work, with what every build keeps between two calls.
ghost use Rattle.build.specs.Keeps.{Lives, Paid, Works, AllGood, Blamed, GoesOn, AllDone, Idles, Untouched, Unstopped, StoppedWhy, Roomy};

use crate::work::Work;

#[derive(Drop)]
pub struct Build {
    pub(crate) work: Work,
    ghost lives: { Lives work },
    ghost paid: { Paid work },
    ghost works: { Works work },
    ghost good: { AllGood work },
    ghost blamed: { Blamed work },
    ghost going: { GoesOn work },
    ghost done: { AllDone work },
    ghost idles: { Idles work },
    ghost untouched: { Untouched work },
    ghost unstopped: { Unstopped work },
    ghost why: { StoppedWhy work },
    ghost roomy: { Roomy work },
}
