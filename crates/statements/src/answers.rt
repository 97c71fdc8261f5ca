//! Reads each value that a query returns from its row.
ghost use Rattle.statements.specs.Calls.{IsOrganization, IsVersionRow, IsRunRow, IsNamedToken, IsBound, IsBoundedRole, IsBody, IsNumber, IsRole, IsStatus};

use crate::calls::Read;
use crate::cells::{
    limit_of, number_of, optional_moment, prefix_of, retention_of, role_in, run_in, status_in,
    version_in,
};
use crate::rows::{BoundedRole, NamedRole, NamedToken, Organization, Token};
use basis::{Bounds, Bytes, KeepCount, Limit, Number, Role, RunRow, RunStatus, Text, VersionRow};
use sqlite::{Error, Row};

impl Read for Organization {
    ghost is_in = { IsOrganization };

    fn of_row(row: &Row) -> Result<Organization, Error> {
        Ok(Organization {
            cap: limit_of(row.get(1)?, 1)?,
            name: Text::new(row.get(0)?),
        })
    }
}

impl Read for VersionRow {
    ghost is_in = { IsVersionRow };

    fn of_row(row: &Row) -> Result<VersionRow, Error> {
        version_in(row, 0)
    }
}

impl Read for RunRow {
    ghost is_in = { IsRunRow };

    fn of_row(row: &Row) -> Result<RunRow, Error> {
        run_in(row, 0)
    }
}

impl Read for Bytes {
    ghost is_in = { IsBody };

    fn of_row(row: &Row) -> Result<Bytes, Error> {
        Ok(Bytes::new(row.get(0)?))
    }
}

impl Read for u64 {
    ghost is_in = { IsNumber };

    fn of_row(row: &Row) -> Result<u64, Error> {
        row.get(0)
    }
}

impl Read for Number {
    ghost is_in = { IsNumber };

    fn of_row(row: &Row) -> Result<Number, Error> {
        number_of(row.get(0)?, 0)
    }
}

impl Read for Limit {
    ghost is_in = { IsNumber };

    fn of_row(row: &Row) -> Result<Limit, Error> {
        limit_of(row.get(0)?, 0)
    }
}

impl Read for RunStatus {
    ghost is_in = { IsStatus };

    fn of_row(row: &Row) -> Result<RunStatus, Error> {
        status_in(row, 0)
    }
}

impl Read for NamedToken {
    ghost is_in = { IsNamedToken };

    fn of_row(row: &Row) -> Result<NamedToken, Error> {
        let role = role_in(row, 2)?;
        let digest = Bytes::new(row.get(1)?);
        let name = Text::new(row.get(0)?);
        Ok(NamedToken {
            name,
            it: Token { digest, role },
        })
    }
}

impl Read for Bounds {
    ghost is_in = { IsBound };

    fn of_row(row: &Row) -> Result<Bounds, Error> {
        Ok(Bounds {
            until: optional_moment(row, 0)?,
            prefix: prefix_of(row.get(1)?, 1)?,
        })
    }
}

impl Read for BoundedRole {
    ghost is_in = { IsBoundedRole };

    fn of_row(row: &Row) -> Result<BoundedRole, Error> {
        let role = role_in(row, 1)?;
        let until = optional_moment(row, 2)?;
        let name = Text::new(row.get(0)?);
        let prefix = prefix_of(row.get(3)?, 3)?;
        Ok(BoundedRole {
            token: NamedRole { name, role },
            bounds: Bounds { until, prefix },
        })
    }
}

impl Read for Role {
    ghost is_in = { IsRole };

    fn of_row(row: &Row) -> Result<Role, Error> {
        role_in(row, 0)
    }
}

impl Read for KeepCount {
    ghost is_in = { IsNumber };

    fn of_row(row: &Row) -> Result<KeepCount, Error> {
        retention_of(row.get(0)?, 0)
    }
}
