use std::marker::Brand;

/// Names the beginning of a run: its rows and requests so far, and the counts of its workers.
pub trait Beginning {
    ghost use Rattle.flow_model.specs.Begin.{Begin};

    ghost begin: { Begin };
}

impl Beginning for Brand {
    ghost use Rattle.std.specs.Prelude.{[]};

    ghost begin = { record { row = 0; turned = 0; states = [] } };
}

/// Names what is fixed for a run: its setup, its beginning, and the endpoints of each worker.
pub trait Charter {
    ghost use Rattle.std.specs.Prelude.{List};
    ghost use Rattle.flow_model.specs.Begin.{Begin};
    ghost use Rattle.flow_model.specs.SetupView.{SetupView};
    ghost use Rattle.flow_runner.specs.Runner.{EndpointsIs};

    ghost setup: { SetupView };

    ghost begin: { Begin };

    ghost endpoints: { List EndpointsIs };
}

impl Charter for Brand {
    ghost use Rattle.std.specs.Prelude.{[], false};
    ghost use Rattle.flow_model.specs.SetupView.{setup_view_of};
    ghost use Rattle.jobs.specs.JobView.{job_view_as};

    ghost setup = { setup_view_of (job_view_as [] [] [] []) [] [] 0 false };

    ghost begin = { record { row = 0; turned = 0; states = [] } };

    ghost endpoints = { [] };
}
